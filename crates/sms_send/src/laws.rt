//! Laws of whatever was sent, in the words of SMPP, and of whatever was paid.

ghost use Rattle.sms_send.specs.Laws.{EachChargeWasRead, NoAnswerChargesTwice};
ghost use Rattle.sms_send.specs.ModelLaws.{EachSendingIsARun};
ghost use Rattle.sms_send.specs.RunLaws.{EachChargeOfARun, EachChargeOfAResumedRun};
ghost use Rattle.sms_send.specs.Ledgers.{PaymentsStand};

use sms_ledger::laws::files_go_on;

/// Each charged part of a message has a place among the answers in what was read of its worker's bind
/// from the dial on. A submit_sm_resp stands there, with `ESME_ROK` and the sequence_number of the
/// part's last attempt.
pub fn each_charge_was_read()
    ensures { EachChargeWasRead }
{}

/// Two charged parts whose answers have one place of one bind are one part.
pub fn no_answer_charges_twice()
    ensures { NoAnswerChargesTwice }
{}

/// Each charged part of a run of rounds is one of a round's, where it has such a place in what that round's connections
/// gave. Two charged parts whose answers have one place of one bind in one round are one part: no answer charges
/// twice, in one round or in two.
pub fn each_charge_of_a_run_rests_on_an_answer()
    ensures { EachChargeOfARun }
{}

/// So it is of what the further rounds sent of a run that went on after its journal: they come after the journal's.
pub fn each_charge_of_a_resumed_run_rests_on_an_answer()
    ensures { EachChargeOfAResumedRun }
{}

/// Whatever was sent, in one round or in several, is a run of the model, in which each event is done: its rows are the
/// statement's, its requests are the parts that were sent, and no slot is held at its end.
pub fn each_sending_is_a_run()
    ensures { EachSendingIsARun }
{}

/// What stands in a ledger's file once a payment was appended is the ledger with that payment.
pub fn payments_stand()
    ensures { PaymentsStand }
{
    files_go_on();
}
