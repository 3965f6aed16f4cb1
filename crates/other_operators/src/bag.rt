//! A bag of rows, kept as the count of each.
ghost use Rattle.std.specs.Prelude.{◌≡◌, ◌≤◌, [], List, None, Some, length, map, option_map, IfOk};
ghost use Rattle.indexmap.specs.IndexMap.{get, spare};
ghost use Rattle.ss_text.specs.Ascending.{ascending};
ghost use Rattle.ss_text.specs.Texts.{Row as RowValue, row_eq, row_cmp};
ghost use Rattle.counts.specs.Counted.{counted, keys_of, changed_get, IsNet};
ghost use Rattle.operator_law.specs.Bags.{MovesBag};
ghost use Rattle.other_operators.specs.RowCounts.{count_in, row_move, row_moves, AreCountsOf, CanBeCounted, KeepsRows, MovesRowCounts};

use counts::{Move, Net, count_of, make_room, store_all};
use indexmap::IndexMap;
use operator_law::{Delta, Kept, Signed};
use ss_text::{NoMemory, Row, Seed};
use std::alloc::Global;
use std::marker::Model;
use std::snapshot::Snapshot;

// The counts that were made ready for a change, of each row that it names.
#[derive(Drop)]
struct Waiting {
    of: Snapshot<Delta>,
    counts: Vec<(Row, Option<u128>)>,
}

/// Names the change that a bag was made ready for.
#[derive(Drop)]
pub struct BagReady {
    of: Snapshot<Delta>,
}

impl Model for BagReady {
    ghost use Rattle.std.specs.Prelude.{List};
    ghost use Rattle.operator_law.specs.declared.delta.Signed.{Signed};

    ghost Value = { List Signed };

    ghost view = { λ r. r.of.value };
}

/// A bag of rows: how often each is there. It does not tell their order.
#[derive(Drop)]
pub struct Bag {
    counts: IndexMap<Row, u128, Seed>,
    waiting: Option<Waiting>,
}

impl Model for Bag {
    ghost use Rattle.std.specs.Prelude.{option_map};
    ghost use Rattle.other_operators.specs.RowCounts.{BagValue};

    ghost Value = { BagValue };

    ghost use Rattle.other_operators.specs.BagFields.{seen, IsBag};

    ghost view = { λ b. seen b };

    ghost invariant = { λ b. IsBag b };
}

fn row_move(m: &Signed) -> Result<Move<Row>, NoMemory>
    ensures { IfOk result (λ key. key ≡ row_move m.now) }
{
    let key = m.row.copy()?;
    Ok(Move { key, up: m.up })
}

fn row_moves(alloc: Global, moves: &[Signed]) -> Result<Vec<Move<Row>>, NoMemory>
    ensures { IfOk result (λ keys. keys.items ≡ row_moves moves.now) }
{
    let mut keys = Vec::with_capacity(alloc, moves.len())?;
    for m in moves {
        keys.push(row_move(m)?)?;
    }
    Ok(keys)
}

// What the moves come to.
fn net_of(alloc: Global, moves: &[Signed]) -> Result<Net<Row>, NoMemory>
    ensures net { IfOk result (λ net. IsNet row_eq (row_moves moves.now) net) }
    ensures keys { IfOk result (λ net. keys_of net ≡ ascending row_cmp (map (λ m. m.key) (row_moves moves.now))) }
{
    let keys = row_moves(alloc, moves)?;
    let net = Net::of(alloc, keys)?;
    Ok(net)
}

// Takes the memory for the rows that move, and gives the count of each after the moves; the counts stay.
fn made_ready(
    alloc: Global,
    counts: &mut IndexMap<Row, u128, Seed>,
    moves: &[Signed],
) -> Result<Vec<(Row, Option<u128>)>, NoMemory>
    requires { CanBeCounted (counted row_eq counts.old) moves.now }
    ensures same { (q : RowValue) → get row_eq counts.new q ≡ get row_eq counts.old q }
    ensures ready { IfOk result (λ ready. MovesRowCounts (get row_eq counts.new) moves.now (changed_get row_eq ready.items (get row_eq counts.new))) }
    ensures room { IfOk result (λ ready. length ready.items ≤ spare counts.new) }
{
    let net = net_of(alloc, moves)?;
    make_room(counts, net.tallies().len())?;
    let ready = net.new_counts(alloc, counts)?;
    Ok(ready)
}

impl Bag {
    /// The bag without rows.
    pub fn new(alloc: Global) -> Bag
        ensures keeps { KeepsRows result [] }
        ensures none { result.waiting ≡ None }
    {
        Bag {
            counts: IndexMap::with_hasher(alloc, Seed::fixed()),
            waiting: None,
        }
    }

    /// How often the row is there.
    pub fn count(&self, row: &Row) -> u128
        ensures { result ≡ count_in self.now row.now }
    {
        count_of(&self.counts, row)
    }
}

impl Kept for Bag {
    ghost use Rattle.std.specs.Prelude.{◌<◌, ◌^◌, length};
    ghost use Rattle.other_operators.specs.RowCounts.{KeepsRows};

    type Change = Delta;

    type Ready = BagReady;

    ghost keeps = { λ b x. KeepsRows b x };

    ghost can_keep = { λ b x. length x < 2 ^ 128 };

    ghost alike = { λ a b. Unit {0} };

    ghost waiting = { λ b. b.waiting };

    ghost made_for = { λ r. r };

    ghost can_reserve = { λ b g. Unit {0} };

    fn reserve(&mut self, alloc: Global, change: &Delta) -> Result<BagReady, NoMemory> {
        self.waiting = None;
        let counts = made_ready(alloc, &mut self.counts, &change.moves)?;
        let of = Snapshot::of(change);
        self.waiting = Some(Waiting { of, counts });
        Ok(BagReady {
            of: Snapshot::of(change),
        })
    }

    fn commit(&mut self, ready: BagReady) {
        if let Some(waiting) = self.waiting.take() {
            store_all(&mut self.counts, waiting.counts);
        }
    }

    ghost keeps_alike = { λ s t x a h. h };
}
