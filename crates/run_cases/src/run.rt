// One run: marked, elaborated, and its elaboration marked again, in memory full of other bytes.
use again::again::elaborate_and_mark;
use elaborate::elaborate::{Elaborated, elaborate};
use marking::check::check;
use programs::areas::area;
use programs::cases::first_mut;
use runs::verdict::{LentRefusal, Verdict, verdict_number};

// The most bytes that an area of a case may have.
pub(crate) const MOST: usize = 70000;

// What the areas are full of.
pub(crate) const SOIL: u8 = 170;

// The bytes of an area for book and tail: the largest book.
const JOINED: usize = 65536;

// What the file says of a run: the limit and the lengths of the lent areas; the answer; whether its second marking
// agrees.
#[derive(Clone, Copy)]
pub(crate) struct Told {
    pub limit: u32,
    pub work: usize,
    pub outrun: usize,
    pub outtail: usize,
    pub verdict: u32,
    pub steps: usize,
    pub visits: u32,
    pub again: bool,
}

// A book and a run, what the file says of them, and what it says is written.
#[derive(Clone, Copy)]
pub(crate) struct Case<'a> {
    pub book: &'a [u8],
    pub run: &'a [u8],
    pub told: Told,
    pub outrun: &'a [u8],
    pub outtail: &'a [u8],
}

// The areas that the elaboration is given.
#[derive(Clone, Copy)]
struct Areas {
    work: [u8; MOST],
    outrun: [u8; MOST],
    outtail: [u8; MOST],
}

// ---- the areas

fn all_zero(area: &[u8]) -> bool {
    area.iter().all(|b| *b == 0)
}

// Whether an area has the bytes, and zeros behind them.
fn holds(area: &[u8], text: &[u8]) -> bool {
    area.strip_prefix(text).is_some_and(|rest| all_zero(rest))
}

// ---- the three answers

impl Told {
    // Whether no area is longer than MOST.
    fn fits(self) -> bool {
        self.work <= MOST && self.outrun <= MOST && self.outtail <= MOST
    }

    // Whether the verdict is this one.
    fn says(self, verdict: Verdict) -> bool {
        self.verdict == u32::from(verdict_number(verdict))
    }

    // Whether so many steps are accepted, with so many visits.
    fn counts(self, steps: usize, visits: u32) -> bool {
        steps == self.steps && visits == self.visits
    }
}

impl Case<'_> {
    // Whether the trace makes no difference: `check` answers the same, refusal 8 aside, and clears its work area.
    fn checks(self) -> bool {
        let told = self.told;
        let mut space: [u8; MOST] = area(SOIL);
        let work = first_mut(&mut space, told.work);
        let m = check(self.book, self.run, told.limit, work);
        all_zero(work)
            && told.counts(m.steps, m.visits)
            && (told.says(Verdict::Lent(LentRefusal::NoRoom)) || told.says(m.verdict))
    }

    // Whether the answer is the file's.
    fn answers(self, e: Elaborated) -> bool {
        self.told.says(e.verdict)
            && self.told.counts(e.steps, e.visits)
            && e.run == self.outrun.len()
            && e.tail == self.outtail.len()
    }

    // Whether the run is elaborated as the file says, the work area is cleared, and the out areas hold what is
    // written.
    fn elaborates(self, areas: &mut Areas) -> bool {
        let told = self.told;
        let work = first_mut(&mut areas.work, told.work);
        let outrun = first_mut(&mut areas.outrun, told.outrun);
        let outtail = first_mut(&mut areas.outtail, told.outtail);
        let e = elaborate(self.book, self.run, told.limit, work, outrun, outtail);
        self.answers(e)
            && all_zero(work)
            && holds(outrun, self.outrun)
            && holds(outtail, self.outtail)
    }

    // Whether the second marking agrees where the file says so, and nowhere else.
    fn repeats(self, areas: &mut Areas) -> bool {
        let told = self.told;
        let mut joined: [u8; MOST] = area(SOIL);
        let mut againrun: [u8; MOST] = area(SOIL);
        let mut againtail: [u8; MOST] = area(SOIL);
        let t = elaborate_and_mark(
            self.book,
            self.run,
            told.limit,
            first_mut(&mut areas.work, told.work),
            first_mut(&mut areas.outrun, told.outrun),
            first_mut(&mut areas.outtail, told.outtail),
            first_mut(&mut joined, JOINED),
            first_mut(&mut againrun, told.outrun),
            first_mut(&mut againtail, told.outtail),
        );
        t.again == told.again
    }

    // Whether all of a run is as in the file.
    pub(crate) fn is_same(self) -> bool {
        if !self.told.fits() || !self.checks() {
            return false;
        }
        let mut areas = Areas {
            work: area(SOIL),
            outrun: area(SOIL),
            outtail: area(SOIL),
        };
        self.elaborates(&mut areas) && self.repeats(&mut areas)
    }
}
