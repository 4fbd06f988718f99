//! What a bind begins with.

ghost use Rattle.std.specs.Prelude.{◌<◌, ◌^◌, length};
ghost use Rattle.std.specs.List.{AllByRecursion, AllByRecursion-prop};
ghost use Rattle.std.proofs.Props.{props};
ghost use Rattle.sms_pdu.specs.Frame.{IsFrame};
ghost use Rattle.sms_session.specs.Session.{IsBound};

use sms_pdu::{Framer, Frames};
use sms_session::Session;

/// A bound session, and what was read after the bind's answer.
#[derive(Drop)]
pub struct Bound {
    pub session: Session,
    /// The octets that were read after these frames: the beginning of another.
    pub framer: Framer,
    /// The whole frames that were read after the answer.
    pub frames: Frames,
    ghost bound: { IsBound session },
    ghost each: { AllByRecursion IsFrame frames } by { AllByRecursion-prop IsFrame (λ f. Prim.hlevel props) frames },
    ghost few: { length frames < 2 ^ 63 },
}
