//! What a pass holds: the words of a pool that it has for itself, or a seat at the table of one that passes share. And the calls
//! on either.

ghost use Rattle.std.specs.Prelude.{◌≡◌, ℕ, ◌+◌, ◌*◌, ◌^◌, ◌<◌, ◌≤◌, Some, None, option_map, IfSome, IfNone};
ghost use Rattle.atomic_table.specs.Seated.{TableId};
ghost use Rattle.pair_pool.specs.Views.{IsListed};
ghost use Rattle.pair_pool.specs.Holders.{IsListedPart};
ghost use Rattle.pair_pool.specs.Held.{held, IsHeld, HasFound, HasNoRoom};

use crate::holder::Holder;
use crate::plays::Good;
use crate::reference::FIRST_CELL;
use crate::table::{parts_at, place_of};
use crate::words::{cell_parts, insert};
use atomic_table::{Seat, Table};
use std::alloc::Global;
use std::marker::Brand;

/// What a pass holds. The calls on it are inlined whole in what calls the pool, but for the probe of a table.
#[derive(Drop)]
pub(crate) enum Hold {
    /// The words of a pool that it has for itself.
    Words(Vec<u64>),
    /// A seat at the table of a pool that passes share.
    Seat(Seat<(), Holder>),
}

/// The reference of the cell (`first`, `second`), which is placed where it does not stand yet. None where each place has
/// another cell.
#[inline(always)]
pub(crate) fn place_in(
    hold: &mut Hold,
    table: &Option<Table<(), Holder, Vec<u64>, Good, Global>>,
    bits: u32,
    first: u32,
    second: u32,
) -> Option<u32>
    requires held { IsHeld hold.old }
    requires bits { bits ≤ 26 }
    requires table { (held hold.old).table ≡ option_map (λ t. t.shared.table_id) table.now }
    requires words { (id : TableId) → (held hold.old).table ≡ Some id → id.words ≡ 2 ^ bits }
    requires places { (held hold.old).view.places ≡ 2 ^ bits }
    requires parts { IsListedPart (held hold.old).view.known first × IsListedPart (held hold.old).view.known second }
    requires fits { (first < 2 ^ 31) × (second < 2 ^ 31) }
    ensures held { IsHeld hold.new }
    ensures table { (held hold.new).table ≡ (held hold.old).table }
    ensures steps { (held hold.new).steps ≤ (held hold.old).steps + 2 * (held hold.old).view.places }
    ensures no_steps { (held hold.old).table ≡ None → (held hold.new).steps ≡ (held hold.old).steps }
    ensures found { IfSome result (λ r. (r < 2 ^ 31) × HasFound (held hold.old).view (held hold.new).view first second r) }
    ensures full { IfNone result (HasNoRoom (held hold.old).view (held hold.new).view first second) }
{
    match hold {
        Hold::Words(words) => match insert(words, bits, first, second) {
            Ok(number) => Some(number),
            Err(_full) => None,
        },
        Hold::Seat(seat) => {
            let Some(table) = table else {
                unreachable!();
            };
            let Some(place) = place_of::<Brand>(&table.shared, seat, bits, first, second) else {
                return None;
            };
            Some(FIRST_CELL + place)
        }
    }
}

/// The parts of the cell with the reference `number`.
#[inline(always)]
pub(crate) fn parts_in(
    hold: &mut Hold,
    table: &Option<Table<(), Holder, Vec<u64>, Good, Global>>,
    number: u32,
) -> (u32, u32)
    requires held { IsHeld hold.old }
    requires table { (held hold.old).table ≡ option_map (λ t. t.shared.table_id) table.now }
    requires words { (id : TableId) → (held hold.old).table ≡ Some id → id.words ≡ (held hold.old).view.places }
    requires known { (a : ℕ) × (b : ℕ) × IsListed (held hold.old).view.known number a b }
    ensures held { IsHeld hold.new }
    ensures table { (held hold.new).table ≡ (held hold.old).table }
    ensures steps { (held hold.new).steps ≤ (held hold.old).steps + 1 }
    ensures no_steps { (held hold.old).table ≡ None → (held hold.new).steps ≡ (held hold.old).steps }
    ensures one_step { (id : TableId) → (held hold.old).table ≡ Some id → (held hold.new).steps ≡ (held hold.old).steps + 1 }
    ensures view { (held hold.new).view ≡ (held hold.old).view }
    ensures cell { IsListed (held hold.old).view.known number result.0 result.1 }
    ensures fits { (result.0 < 2 ^ 31) × (result.1 < 2 ^ 31) }
{
    match hold {
        Hold::Words(words) => cell_parts(words.as_slice(), number),
        Hold::Seat(seat) => {
            let Some(table) = table else {
                unreachable!();
            };
            parts_at(&table.shared, seat, number)
        }
    }
}
