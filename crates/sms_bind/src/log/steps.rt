//! The steps on a log's table.
//!
//! Each is one load of the table's word, on which nothing rests: a view changes only at a step.

ghost use Rattle.std.specs.Prelude.{◌≡◌, ℕ, ◌<◌, List, [], ◌∷◌, ◌++◌, Option};
ghost use Rattle.atomic_table.specs.Table.{Splits};
ghost use Rattle.sms_bind.specs.declared.log.rule.View.{View};
ghost use Rattle.sms_bind.specs.Frames.{IsRequest, IsUnclaimed};
ghost use Rattle.sms_bind.specs.LogRule.{IsKept, IsSettled, seat, wire_seat, joined, dealer, dealt, noted};
ghost use Rattle.sms_bind.specs.Wires.{writer};

use crate::log::rule::{Begins, Begun, Claims, Deals, Given, LogRule, Notes, TakesIn, Tells, View};
use crate::wire::Wire;
use atomic_table::{Badge, Shared, Split};
use sms_pdu::Frame;
use std::io::Write;
use std::mem;

pub type LogTable = Shared<(), View, (), LogRule>;

/// Splits a new seat off.
fn split_off<S: Split<View>>(table: &LogTable, badge: &mut Badge<View>) -> Badge<View>
    requires table { (badge.old.table_id ≡ table.now.table_id) × (0 < table.now.table_id.words) }
    requires allowed { (v : View) × (badge.old.views ≡ v ∷ []) × Splits {S = Unit {0}} IsKept badge.old.id v (S.left v) (S.right v) }
    ensures table { (badge.new.table_id ≡ badge.old.table_id) × (result.table_id ≡ badge.old.table_id) }
    ensures left { (v : View) → badge.old.views ≡ v ∷ [] → badge.new.views ≡ S.left v ∷ [] }
    ensures right { (v : View) → badge.old.views ≡ v ∷ [] → result.views ≡ S.right v ∷ [] }
{
    let mut mine = mem::replace(badge, Badge::blank()).into_seat::<()>();
    let given = table.split_seat::<S>(&mut mine);
    *badge = mine.into_badge();
    given.into_badge()
}

/// Takes another seat in, and leaves a blank in its place.
pub fn take_in(table: &LogTable, badge: &mut Badge<View>, other: &mut Badge<View>)
    requires table { (badge.old.table_id ≡ table.now.table_id) × (other.old.table_id ≡ table.now.table_id) × (0 < table.now.table_id.words) }
    requires badge { (v : View) × (badge.old.views ≡ v ∷ []) × (0 < v.parts) }
    requires other { (w : View) × (other.old.views ≡ w ∷ []) }
    ensures table { badge.new.table_id ≡ badge.old.table_id }
    ensures joined { (v w : View) → badge.old.views ≡ v ∷ [] → other.old.views ≡ w ∷ [] → badge.new.views ≡ joined v w ∷ [] }
{
    let mut mine = mem::replace(badge, Badge::blank()).into_seat::<()>();
    let theirs = mem::replace(other, Badge::blank()).into_seat::<()>();
    table.join_seat::<TakesIn>(&mut mine, theirs);
    *badge = mine.into_badge();
}

/// Deals a seat of one part out.
pub fn deal(table: &LogTable, badge: &mut Badge<View>) -> Badge<View>
    requires table { (badge.old.table_id ≡ table.now.table_id) × (0 < table.now.table_id.words) }
    requires parts { (v : View) × (badge.old.views ≡ v ∷ []) × (1 < v.parts) }
    ensures table { (badge.new.table_id ≡ badge.old.table_id) × (result.table_id ≡ badge.old.table_id) }
    ensures dealer { (v : View) → badge.old.views ≡ v ∷ [] → badge.new.views ≡ dealer v ∷ [] }
    ensures dealt { result.views ≡ seat 1 [] [] ∷ [] }
{
    split_off::<Deals>(table, badge)
}

/// Deals the seat of a wire out, whose log begins.
pub fn begin<F: Begun, W: Write>(
    table: &LogTable,
    badge: &mut Badge<View>,
    wire: &Wire<W>,
) -> Badge<View>
    requires picked { W.contents (writer wire.now) ≡ F.first }
    requires table { (badge.old.table_id ≡ table.now.table_id) × (0 < table.now.table_id.words) }
    requires parts { (v : View) × (badge.old.views ≡ v ∷ []) × (1 < v.parts) }
    ensures table { (badge.new.table_id ≡ badge.old.table_id) × (result.table_id ≡ badge.old.table_id) }
    ensures dealer { (v : View) → badge.old.views ≡ v ∷ [] → badge.new.views ≡ dealer v ∷ [] }
    ensures begun { result.views ≡ wire_seat (W.contents (writer wire.now)) [] ∷ [] }
{
    let _wire = wire;
    split_off::<Begins<F>>(table, badge)
}

/// Gives a wire a request, which the pass claims.
pub fn claim<F: Given>(
    table: &LogTable,
    wire: &mut Badge<View>,
    pass: &mut Badge<View>,
    frame: &Frame,
)
    requires picked { frame.now ≡ F.frame }
    requires table { (wire.old.table_id ≡ table.now.table_id) × (pass.old.table_id ≡ table.now.table_id) × (0 < table.now.table_id.words) }
    requires request { IsRequest frame.now }
    requires wire { (first : Option (List ℕ)) × (given : List (List ℕ)) × (wire.old.views ≡ wire_seat first given ∷ []) }
    requires pass { (claims : List (List ℕ)) × (pass.old.views ≡ seat 1 [] claims ∷ []) }
    ensures table { (wire.new.table_id ≡ wire.old.table_id) × (pass.new.table_id ≡ pass.old.table_id) }
    ensures given { (first : Option (List ℕ)) (given : List (List ℕ)) → wire.old.views ≡ wire_seat first given ∷ [] → wire.new.views ≡ wire_seat first (given ++ frame.now ∷ []) ∷ [] }
    ensures claims { (claims : List (List ℕ)) → pass.old.views ≡ seat 1 [] claims ∷ [] → pass.new.views ≡ seat 1 [] (claims ++ frame.now ∷ []) ∷ [] }
{
    take_in(table, wire, pass);
    *pass = split_off::<Claims<F>>(table, wire);
}

/// Gives a wire a frame that nobody claims.
pub fn note<F: Given>(table: &LogTable, wire: &mut Badge<View>, frame: &Frame)
    requires picked { frame.now ≡ F.frame }
    requires table { (wire.old.table_id ≡ table.now.table_id) × (0 < table.now.table_id.words) }
    requires unclaimed { IsUnclaimed frame.now }
    requires wire { (v : View) × (wire.old.views ≡ v ∷ []) × (0 < v.parts) }
    ensures table { wire.new.table_id ≡ wire.old.table_id }
    ensures given { (v : View) → wire.old.views ≡ v ∷ [] → wire.new.views ≡ noted frame.now v ∷ [] }
{
    let _spent = split_off::<Notes<F>>(table, wire);
}

/// Looks at the log, which tells who has all parts that its claims are the requests that it was given.
pub fn tell(table: &LogTable, badge: &mut Badge<View>)
    requires table { (badge.old.table_id ≡ table.now.table_id) × (0 < table.now.table_id.words) }
    requires badge { (v : View) × (badge.old.views ≡ v ∷ []) }
    ensures same { (badge.new.table_id ≡ badge.old.table_id) × (badge.new.views ≡ badge.old.views) }
    ensures settled { (v : View) → badge.old.views ≡ v ∷ [] → IsSettled v }
{
    let mut mine = mem::replace(badge, Badge::blank()).into_seat::<()>();
    table.load::<Tells>(&mut mine, 0);
    *badge = mine.into_badge();
}
