//! Taking answers out of a worker's ring, one by one.

ghost use Rattle.std.specs.Prelude.{◌≡◌, ◌∷◌, ◌++◌, [], IfErr, IfOk};
ghost use Rattle.rtrb.specs.Ring.{known_items, received, SameConsumer};

use rtrb::Consumer;
use sms_pdu::Reply;

/// Evidence that a ring was found empty, behind so many answers that were taken before. Only a look that finds
/// none gives it.
#[derive(Clone, Copy, Debug, PartialEq, Eq)]
pub struct RingEmpty {
    taken: u32,
}

/// Takes the next answer out of the ring, behind so many that were taken before.
pub fn next(consumer: &mut Consumer<Reply>, taken: u32) -> Result<Reply, RingEmpty>
    ensures ring { SameConsumer consumer.old consumer.new }
    ensures next { IfOk result (λ reply. received consumer.new ≡ received consumer.old ++ reply ∷ []) }
    ensures empty { IfErr result (λ empty. (empty.taken ≡ taken) × (received consumer.new ≡ received consumer.old) × (known_items consumer.new ≡ [])) }
{
    match consumer.pop() {
        Ok(reply) => Ok(reply),
        Err(_) => Err(RingEmpty { taken }),
    }
}
