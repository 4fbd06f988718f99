//! The layout of bodies: the fields of each in their order, what they are, and their maxima. This
//! is the code's one table of them, to be read beside chapter 4 of SMPP 3.4.
//!
//! What reads, measures and writes a body is made from its table: `sm_fields!(read_fields!(..))` is
//! the macro `read_fields!` of what stands in its parentheses and of the rows. A row is the field's
//! name in the body, its name in a refusal, and what it is:
//!
//! - `number`: one octet.
//! - `text(maximum)`: a C-Octet String, whose maximum counts its 0 (SMPP 3.4 3.1).
//! - `time`: a C-Octet String of 0 or [`TIME_LENGTH`] octets before its 0 (SMPP 3.4 7.1.1).
//! - `message`: an octet of length, and so many octets, at most [`MESSAGE_MAXIMUM`] (SMPP 3.4
//!   5.2.21).

/// The octets of a time, without its 0, where it isn't empty (SMPP 3.4 7.1.1).
pub(crate) const TIME_LENGTH: u8 = 16;

/// The octets that a short_message has at most (SMPP 3.4 5.2.21).
pub(crate) const MESSAGE_MAXIMUM: usize = 254;

/// bind_transmitter, bind_transceiver (SMPP 3.4 4.1.1, 4.1.5).
macro_rules! bind_fields {
    ($with:ident!($($context:tt)*)) => {
        $with! { ($($context)*)
            system_id: SystemId is text(16),
            password: Password is text(9),
            system_type: SystemType is text(13),
            interface_version: InterfaceVersion is number,
            addr_ton: AddrTon is number,
            addr_npi: AddrNpi is number,
            address_range: AddressRange is text(41),
        }
    };
}

/// Their responses, before the parameters (SMPP 3.4 4.1.2, 4.1.6).
macro_rules! bind_resp_fields {
    ($with:ident!($($context:tt)*)) => {
        $with! { ($($context)*)
            system_id: SystemId is text(16),
        }
    };
}

/// submit_sm, deliver_sm, before the parameters (SMPP 3.4 4.4.1, 4.6.1).
macro_rules! sm_fields {
    ($with:ident!($($context:tt)*)) => {
        $with! { ($($context)*)
            service_type: ServiceType is text(6),
            source_ton: SourceTon is number,
            source_npi: SourceNpi is number,
            source_addr: SourceAddr is text(21),
            dest_ton: DestTon is number,
            dest_npi: DestNpi is number,
            dest_addr: DestAddr is text(21),
            esm_class: EsmClass is number,
            protocol_id: ProtocolId is number,
            priority: Priority is number,
            schedule: Schedule is time,
            validity: Validity is time,
            registered: Registered is number,
            replace: Replace is number,
            data_coding: DataCoding is number,
            default_msg: DefaultMsg is number,
            short_message: ShortMessage is message,
        }
    };
}

/// submit_sm_resp, deliver_sm_resp (SMPP 3.4 4.4.2, 4.6.2).
macro_rules! sm_resp_fields {
    ($with:ident!($($context:tt)*)) => {
        $with! { ($($context)*)
            message_id: MessageId is text(65),
        }
    };
}

/// The maximum of the row of a table that has one row, of a text.
macro_rules! maximum_of {
    (() $name:ident: $field:ident is text($maximum:literal),) => {
        $maximum
    };
}

pub(crate) use bind_fields;
pub(crate) use bind_resp_fields;
pub(crate) use maximum_of;
pub(crate) use sm_fields;
pub(crate) use sm_resp_fields;
