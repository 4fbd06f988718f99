//! The detail lines of binds that failed.

use crate::faults::context::Address;
use crate::faults::details::shown::Shown;
use crate::faults::details::status::status_name;
use sms_devices::Unconnected;
use sms_driver::BindFailure;
use std::alloc::AllocError;
use std::fmt::Write as _;

/// Why a bind failed.
pub(crate) fn failure_text(why: BindFailure) -> &'static str {
    match why {
        BindFailure::NoConnection => connection_text(Unconnected::Other),
        BindFailure::Closed => "the connection was closed before an answer",
        BindFailure::NotSmpp => "what came is no SMPP, or no answer to a bind",
        BindFailure::Read(_) => "no answer came in time, or the connection failed",
        BindFailure::Write(_) => "the bind could not be written",
    }
}

/// Why there is no connection for a bind.
pub(crate) fn connection_text(why: Unconnected) -> &'static str {
    match why {
        Unconnected::Refused => "no connection: it was refused",
        Unconnected::Unresolved => "no connection: the host's name was not resolved",
        Unconnected::TimedOut => "no connection: it took too long",
        Unconnected::Unreachable => "no connection: the host or its network is unreachable",
        Unconnected::Other =>
            "no connection: another reason; maybe no descriptor, port or memory is left here",
    }
}

/// Writes why a bind failed, with its message centre where that is known.
pub(crate) fn write_bind_failure(
    text: &mut String,
    centre: &Option<Address>,
    why: &str,
) -> Result<(), AllocError> {
    match centre {
        Some(centre) => {
            let (host, port) = (Shown(centre.host.as_str()), centre.port);
            write!(text, "{host}:{port}: {why}")
        }
        None => text.push_str(why),
    }
}

/// Writes the command_status with which a bind was refused, and its name.
pub(crate) fn write_status(text: &mut String, status: u32) -> Result<(), AllocError> {
    let name = status_name(status);
    write!(text, "{status} {name}")
}
