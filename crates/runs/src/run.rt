// A run (document 01's word): 4-byte records, a mark, a byte and a 16-bit number. S opens a step, its byte the rule;
// then P, the number of an earlier step, C, a Bool term, and A, a term, in that order. A step is handed on as the part
// of the run that starts with its S.
ghost use Rattle.std.specs.Prelude.{◌≡◌, ◌&&◌, ◌+◌, ℕ, Bool, ltb, length};
ghost use Rattle.numbers.specs.Bytes.{Bytes};
ghost use Rattle.terms.specs.Term.{sort, same_sort};
ghost use Rattle.terms.specs.Term.Sort.{bool};
ghost use Rattle.terms.specs.Book.{count, tree, SortsBelow};
ghost use Rattle.runs.specs.Run.{head_rule, recs, leading, all_right, shape_ok, read_run};
ghost use Rattle.runs.specs.Memory.StepParts.{after_in, parts_in, premises_in, clause_in, args_in, head_in, parts_ok};
ghost use Rattle.runs.specs.Memory.StepParts.{rule_in, read_in, step_from, passed};
ghost use Rattle.std.specs.Prelude.{is_ok};
ghost use Rattle.std.specs.Prelude.{is_some};

use crate::rule::{Rule, rule_of};
use crate::verdict::LentRefusal;
use numbers::bytes::{byte, read_u16};
use rules::run_records::rest;
use terms::format::{
    ARGUMENT, BOOL_SORT, BYTE_AT, CLAUSE, MAX_RUN_BYTES, NUMBER_AT, PREMISE, RUN_RECORD_BYTES, STEP,
};
use terms::records::count;

// Where the parts of a step end, in bytes from its start: its premises, its clause, and its arguments, which end where
// the step does.
#[derive(Debug, Clone, Copy, PartialEq, Eq)]
pub struct StepParts {
    pub premises: usize,
    pub clause: usize,
    pub args: usize,
}

// ---- the parts of a step

// How many records at the start of a part have a mark.
fn leading_count(part: &[u8], mark: u8) -> usize
    ensures { result ≡ length (leading mark (recs part.now)) }
{
    part.chunks_exact(RUN_RECORD_BYTES)
        .take_while(|record| record[0] == mark)
        .count()
}

// What follows them.
fn after(part: &[u8], mark: u8) -> &[u8]
    ensures { result.now ≡ after_in mark part.now }
{
    &part[RUN_RECORD_BYTES * leading_count(part, mark)..]
}

pub fn parts(step: &[u8]) -> StepParts
    ensures { result ≡ parts_in step.now }
{
    let behind_premises = after(rest(step, 1), PREMISE);
    let behind_clause = after(behind_premises, CLAUSE);
    let next = after(behind_clause, ARGUMENT);
    StepParts {
        premises: step.len() - behind_premises.len(),
        clause: step.len() - behind_clause.len(),
        args: step.len() - next.len(),
    }
}

// The parts themselves, of the step whose parts p has.
pub fn premises(step: &[u8], p: StepParts) -> &[u8]
    requires { p ≡ parts_in step.now }
    ensures { result.now ≡ premises_in step.now }
{
    rest(&step[..p.premises], 1)
}

pub fn clause(step: &[u8], p: StepParts) -> &[u8]
    requires { p ≡ parts_in step.now }
    ensures { result.now ≡ clause_in step.now }
{
    &step[p.premises..p.clause]
}

pub fn args(step: &[u8], p: StepParts) -> &[u8]
    requires { p ≡ parts_in step.now }
    ensures { result.now ≡ args_in step.now }
{
    &step[p.clause..p.args]
}

// The run from step k on.
pub fn step_at(run: &[u8], k: usize) -> &[u8]
    ensures { result.now ≡ step_from k run.now }
{
    let mut step = run;
    for _ in 0..k {
        step = &step[parts(step).args..];
    }
    step
}

// ---- refusal 7

// Whether the first record opens a step of a known rule.
fn head_ok(step: &[u8]) -> bool
    ensures { result ≡ is_some (head_rule (head_in step.now)) }
{
    byte(step, 0) == STEP
        && rule_of(byte(step, BYTE_AT)).is_some()
        && read_u16(step, NUMBER_AT) == 0
}

// Whether each record's byte is 0 and its number passes a test.
fn all_right<F: Fn(usize) -> bool>(part: &[u8], test: F) -> bool
    requires { F.IsAlwaysCallable test }
    ensures { (p : ℕ → Bool) → ((k : ℕ) (r : Bool) → F.post test k r → r ≡ p k) →
        result ≡ all_right p (recs part.now) }
{
    part.chunks_exact(RUN_RECORD_BYTES).all(|record| record[BYTE_AT] == 0
        && test(read_u16(record, NUMBER_AT) as usize))
}

// Whether record c of a book of n records, whose sorts are given, is a Bool term.
fn is_literal(sorts: &[u8], n: usize, c: usize) -> bool
    ensures { (b : Bytes) → n ≡ count b → SortsBelow (count b) b sorts.now →
        result ≡ (ltb c (count b) && same_sort (sort (tree b c)) bool) }
{
    c < n && byte(sorts, c) == BOOL_SORT
}

// An assume has one C and nothing else.
fn shape_ok(rule: Rule, premises: &[u8], clause: &[u8], args: &[u8]) -> bool
    ensures { result ≡ shape_ok rule (recs premises.now) (recs clause.now) (recs args.now) }
{
    rule != Rule::Assume
        || premises.len() / RUN_RECORD_BYTES == 0
            && clause.len() / RUN_RECORD_BYTES == 1
            && args.len() / RUN_RECORD_BYTES == 0
}

// Whether the records of step n, whose parts p has, are in order.
fn parts_ok(book: &[u8], sorts: &[u8], step: &[u8], p: StepParts, n: usize) -> bool
    requires sorts_below { SortsBelow (count book.now) book.now sorts.now }
    requires p_value { p ≡ parts_in step.now }
    ensures { result ≡ parts_ok book.now n step.now }
{
    let terms = count(book);
    all_right(premises(step, p), |k| k < n)
        && all_right(clause(step, p), |c| is_literal(sorts, terms, c))
        && all_right(args(step, p), |a| a < terms)
}

// The rule of a step.
pub fn rule_in(step: &[u8]) -> Rule
    ensures { result ≡ rule_in step.now }
{
    rule_of(byte(step, BYTE_AT)).unwrap_or(Rule::Assume)
}

// Whether step n, whose parts p has, can be read.
fn step_ok(book: &[u8], sorts: &[u8], step: &[u8], p: StepParts, n: usize) -> bool
    requires sorts_below { SortsBelow (count book.now) book.now sorts.now }
    requires p_value { p ≡ parts_in step.now }
    ensures { result ≡ is_ok (read_in book.now n step.now) }
{
    head_ok(step)
        && parts_ok(book, sorts, step, p, n)
        && shape_ok(
            rule_in(step),
            premises(step, p),
            clause(step, p),
            args(step, p),
        )
}

// ---- the run

// Refusals 6 and 7. The sorts are those of the book's records.
pub fn read_run(book: &[u8], sorts: &[u8], run: &[u8]) -> Result<(), LentRefusal>
    requires { SortsBelow (count book.now) book.now sorts.now }
    ensures { result ≡ passed (read_run book.now run.now) }
{
    if run.len() % RUN_RECORD_BYTES != 0 || MAX_RUN_BYTES < run.len() {
        return Err(LentRefusal::RunSize);
    }
    let mut left = run;
    let mut n = 0;
    // A while, since only a step's own records say where the next step starts.
    while !left.is_empty() {
        let p = parts(left);
        if !step_ok(book, sorts, left, p, n) {
            return Err(LentRefusal::RunRecord);
        }
        left = &left[p.args..];
        n += 1;
    }
    Ok(())
}
