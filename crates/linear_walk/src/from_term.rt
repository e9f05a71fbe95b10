// `LinearComb::from_term` of src/checker/rules/linear_arithmetic.rs, in an area of the work area.
ghost use Rattle.std.specs.Prelude.{[], ◌+◌, ◌<◌};
ghost use Rattle.terms.specs.Book.{count, tree};
ghost use Rattle.rules.specs.Limits.{limited};
ghost use Rattle.linear_walk.specs.LinearTerms.{from_term};
ghost use Rattle.index_map.specs.Memory.Entries.{Held};
ghost use Rattle.linear_comb.specs.Memory.WorkArea.{Area, area_of, OnlyArea};
ghost use Rattle.linear_walk.specs.Memory.Walks.{Walks};
ghost use Rattle.rules.specs.Memory.Parts.{Laid};

use crate::linear_walk::add_term;
use index_map::combination::Walked;
use linear_comb::notes::NOTE_WORDS;
use numbers::number::Number;
use rules::counter::Counter;
use rules::refusal::Refusal;
use terms::areas::{STEP_AT, SUM_BYTES};

// The combination that a term is, in area j, which is empty before; `visits` were made before.
pub fn from_term(
    book: &[u8],
    work: &mut [u8],
    j: usize,
    id: usize,
    counter: Counter,
) -> Result<Walked, Refusal>
    requires { Area j work.old × (Laid book.now ×
        ((id < count book.now) × Held book.now (area_of j work.old) [])) }
    ensures only_area { OnlyArea j work.old work.new }
    ensures walks { Walks book.now (area_of j work.new) result
        (from_term (limited counter.limit) (tree book.now id) counter.visits) }
{
    let start = STEP_AT + SUM_BYTES * j;
    let w = Walked::new(counter.visits);
    let mut noted = [0u64; NOTE_WORDS];
    let one = Number::whole(1);
    add_term(
        book,
        &mut work[start..start + SUM_BYTES],
        id,
        one,
        w,
        counter.limit,
        &mut noted,
    )
}
