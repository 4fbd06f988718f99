//! The fields of a PDU, by which a refusal says where it met a fault.

/// A field of a PDU's body (SMPP 3.4 5.2), or what stands in a field's place.
#[derive(Clone, Copy, Debug, PartialEq, Eq)]
pub enum Field {
    SystemId,
    Password,
    SystemType,
    InterfaceVersion,
    AddrTon,
    AddrNpi,
    AddressRange,
    ServiceType,
    SourceTon,
    SourceNpi,
    SourceAddr,
    DestTon,
    DestNpi,
    DestAddr,
    EsmClass,
    ProtocolId,
    Priority,
    Schedule,
    Validity,
    Registered,
    Replace,
    DataCoding,
    DefaultMsg,
    SmLength,
    ShortMessage,
    MessageId,
    /// The optional parameters.
    Params,
    /// Octets after the last field.
    Rest,
    /// The PDU as a whole.
    Whole,
}
