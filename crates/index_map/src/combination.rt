// `IndexMap<K, Rational>` with a constant beside it, which is what both `LinearComb` and `Polynomial` are: the entries
// lie in lent memory, their number and the constant are carried by value.
ghost use Rattle.std.specs.Prelude.{◌≡◌, ℕ, IfOk};
ghost use Rattle.numbers.specs.Rational.{Proper};
ghost use Rattle.rules.specs.Limits.{limited, plus};
ghost use Rattle.index_map.specs.Memory.Answers.{nothing, with_constant};

use numbers::number::Number;
use rules::refusal::Refusal;

#[derive(Clone, Copy, Debug, PartialEq, Eq)]
pub struct Combination {
    // The number of entries.
    pub len: usize,
    pub constant: Number,
}

// What a walk has filled, and the visits made so far.
#[derive(Clone, Copy, Debug, PartialEq, Eq)]
pub struct Walked {
    pub sum: Combination,
    pub visits: u32,
}

impl Combination {
    // No entries, and 0.
    pub fn new() -> Combination
        ensures { result ≡ nothing }
    {
        Combination {
            len: 0,
            constant: Number::whole(0),
        }
    }
}

impl Walked {
    // Nothing is filled yet.
    pub fn new(visits: u32) -> Walked
        ensures { result ≡ record { sum = nothing; visits = visits } }
    {
        Walked {
            sum: Combination::new(),
            visits,
        }
    }

    // Adds to the constant.
    pub fn plus(self, q: Number) -> Result<Walked, Refusal>
        requires { Proper self.sum.constant × Proper q }
        ensures value { (l : ℕ) → result ≡ with_constant self (plus (limited l) self.sum.constant q) }
        ensures proper { IfOk result (λ w. Proper w.sum.constant) }
    {
        let constant = self.sum.constant.add(q).ok_or(Refusal::NumberRange)?;
        let sum = Combination {
            constant,
            ..self.sum
        };
        Ok(Walked { sum, ..self })
    }
}
