//! What holds of each submit_sm, whatever fields are asked for. Each law holds by the contract of its function, which
//! does nothing.

ghost use Rattle.sms_message.specs.Laws.{ArePlain};

/// Where no field is asked for, a submit_sm says no more than its message and whether a receipt is asked for.
pub fn no_fields_are_plain()
    ensures { ArePlain }
{}
