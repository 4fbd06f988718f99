//! The readers' ends of the rings, in one list.

ghost use Rattle.std.specs.Prelude.{◌≡◌, length, map};
ghost use Rattle.sms_driver.specs.BindEnds.{outcome_of};
ghost use Rattle.sms_driver.specs.Rings.{flat};
ghost use Rattle.sms_driver.specs.Buffers.{IsFree};

use rtrb::Producer;
use sms_bind::ReaderEnd;
use sms_pdu::Reply;

/// The readers' ends of all rings, one after another, and the readers without them.
#[derive(Drop)]
pub(crate) struct RingEnds {
    pub producers: Vec<Producer<Reply>>,
    pub readers: Vec<ReaderEnd>,
}

/// Takes the rings out of the readers, into the buffers that were made for them.
pub(crate) fn take_rings(readers: Vec<ReaderEnd>, buffers: RingEnds) -> RingEnds
    requires producers { IsFree (length (flat (map (λ d. d.producers.items) readers.items))) buffers.producers }
    requires bare { IsFree (length readers.items) buffers.readers }
    ensures producers { result.producers.items ≡ flat (map (λ d. d.producers.items) readers.items) }
    ensures seats { map (λ d. d.seat.window) result.readers.items ≡ map (λ d. d.seat.window) readers.items }
    ensures outcomes { map outcome_of result.readers.items ≡ map outcome_of readers.items }
{
    let RingEnds {
        mut producers,
        readers: mut bare,
    } = buffers;
    for reader in readers {
        let mut reader = reader;
        let Ok(()) = producers.append(&mut reader.producers) else {
            unreachable!()
        };
        bare.push_reserved(reader);
    }
    RingEnds {
        producers,
        readers: bare,
    }
}
