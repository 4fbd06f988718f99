//! The command_status of an answer by its name (SMPP 3.4, 5.1.3). Any other status is carried as
//! its number.

ghost use Rattle.std.specs.Prelude.{◌≡◌};
ghost use Rattle.sms_core.specs.Statuses.{no_error, bad_command_length, bad_command_id, wrong_bind_state, already_bound, system_error, bad_destination, bind_failed, bad_password, bad_system_id, queue_full, submit_failed, throttled};

/// No error.
pub const ESME_ROK: u32 = 0x00;
/// The command_length is invalid.
pub const ESME_RINVCMDLEN: u32 = 0x02;
/// The command_id is invalid.
pub const ESME_RINVCMDID: u32 = 0x03;
/// The command doesn't fit the state of the bind.
pub const ESME_RINVBNDSTS: u32 = 0x04;
/// The sender is bound already.
pub const ESME_RALYBND: u32 = 0x05;
/// The message centre has an error of its own.
pub const ESME_RSYSERR: u32 = 0x08;
/// The destination address is invalid.
pub const ESME_RINVDSTADR: u32 = 0x0B;
/// The bind failed.
pub const ESME_RBINDFAIL: u32 = 0x0D;
/// The password is invalid.
pub const ESME_RINVPASWD: u32 = 0x0E;
/// The system_id is invalid.
pub const ESME_RINVSYSID: u32 = 0x0F;
/// The message centre's queue is full.
pub const ESME_RMSGQFUL: u32 = 0x14;
/// The submit_sm failed.
pub const ESME_RSUBMITFAIL: u32 = 0x45;
/// The sender has exceeded its allowed rate.
pub const ESME_RTHROTTLED: u32 = 0x58;

/// Each name has the number of the definitions.
pub fn statuses_are_named()
    ensures rok { ESME_ROK ≡ no_error }
    ensures rinvcmdlen { ESME_RINVCMDLEN ≡ bad_command_length }
    ensures rinvcmdid { ESME_RINVCMDID ≡ bad_command_id }
    ensures rinvbndsts { ESME_RINVBNDSTS ≡ wrong_bind_state }
    ensures ralybnd { ESME_RALYBND ≡ already_bound }
    ensures rsyserr { ESME_RSYSERR ≡ system_error }
    ensures rinvdstadr { ESME_RINVDSTADR ≡ bad_destination }
    ensures rbindfail { ESME_RBINDFAIL ≡ bind_failed }
    ensures rinvpaswd { ESME_RINVPASWD ≡ bad_password }
    ensures rinvsysid { ESME_RINVSYSID ≡ bad_system_id }
    ensures rmsgqful { ESME_RMSGQFUL ≡ queue_full }
    ensures rsubmitfail { ESME_RSUBMITFAIL ≡ submit_failed }
    ensures rthrottled { ESME_RTHROTTLED ≡ throttled }
{}
