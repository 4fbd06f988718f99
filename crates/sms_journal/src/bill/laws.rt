//! Laws of what is listed. Each holds by the contract of its function, which does nothing.

ghost use Rattle.sms_journal.specs.BillLaws.{BillsAddUp, DoubtsAreOfTheBill, DoubtsHaveRefs};

/// For each account the costs of its parts on the bill are its row of the statement: those of charged parts
/// what is charged, those of unanswered parts what is reserved, and those of the others what is returned.
pub fn bills_add_up()
    ensures { BillsAddUp }
{}

/// The parts in doubt are exactly the unanswered parts of the bill.
pub fn doubts_are_of_the_bill()
    ensures plain { DoubtsAreOfTheBill }

    // So they are where each line ends in the reference of its message.
    ensures refs { DoubtsHaveRefs }
{}
