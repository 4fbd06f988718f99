//! Optional parameters (SMPP 3.4 5.3).

use crate::octets::Octets;
use std::alloc::Global;
use std::marker::Model;

/// An optional parameter: a tag, and a value of at most 65,535 octets.
#[derive(Debug, Drop)]
pub struct Parameter {
    /// Which parameter it is (SMPP 3.4 5.3.2).
    pub tag: u16,
    /// Its value, unread.
    pub value: Octets,
}

/// The optional parameters of a PDU in their order; a tag may come again. Contracts see the list.
#[derive(Debug, Drop)]
pub struct Params {
    parameters: Vec<Parameter>,
}

impl Model for Params {
    ghost use Rattle.std.specs.Prelude.{List};
    ghost use Rattle.sms_pdu.specs.declared.parameter.Parameter.{Parameter};

    ghost Value = { List Parameter };

    ghost view = { λ p. p.parameters.items };
}

impl Params {
    ghost use Rattle.std.specs.Prelude.{◌≡◌, []};

    /// These parameters. Takes no memory.
    pub fn new(parameters: Vec<Parameter>) -> Params
        ensures { result ≡ parameters.items }
    {
        Params { parameters }
    }

    /// No parameters. Takes no memory.
    pub fn none(alloc: Global) -> Params
        ensures { result ≡ [] }
    {
        Params {
            parameters: Vec::new(alloc),
        }
    }

    /// The parameters.
    pub fn as_slice(&self) -> &[Parameter]
        ensures { result.now ≡ self.now }
    {
        self.parameters.as_slice()
    }

    /// The parameters again. Takes no memory.
    pub fn into_vec(self) -> Vec<Parameter>
        ensures { result.items ≡ self }
    {
        self.parameters
    }
}
