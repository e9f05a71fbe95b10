// Document 01's operators, rules and refusals in words, by their numbers there.
use programs::printing::print;
use programs::tables::print_words;
use std::io;

// The operator's name in SMT-LIB.
pub fn print_operator(rt: &impl Print, o: u8) -> io::Result<()> {
    print_words(
        rt,
        o,
        b"
01 not
02 and
03 or
04 =
05 <
06 <=
07 >
08 >=
09 +
10 -
11 *
12 div
13 /
14 to_real
15 bvadd
16 bvsub
17 bvneg
18 bvmul
",
    )
}

// The rule's name in Alethe.
pub fn print_rule(rt: &impl Print, rule: u8) -> io::Result<()> {
    print_words(
        rt,
        rule,
        b"
00 assume
01 la_rw_eq
02 la_disequality
03 la_totality
04 la_tautology
05 la_generic
06 bounded_farkas
07 poly_simp
08 poly_simp_rel
",
    )
}

// What was wrong, behind the number of the refusal; 2, 6 and 7 have words of their own in `refusals`.
pub fn print_reason(rt: &impl Print, c: u8) -> io::Result<()> {
    print!(rt; "{c}: ")?;
    print_words(
        rt,
        c,
        b"
01 the limit is not from 1 to 1000000
03 the record is not laid out as a term
04 an argument has the wrong sort
05 the record equals an earlier one
08 the elaboration has more than 2048 terms or 4096 records
10 a visit past the limit
11 a number out of range
12 more than 64 monomials, a monomial of more than 8 atoms, or products nested more than 8 deep
20 the wrong number of arguments
21 the wrong number of premises
22 the wrong number of literals
23 the premise has the wrong number of literals
24 a term of the wrong form
25 an argument or a bound that is not a number
26 a literal that is not a disequality
27 a disequality of more than two terms
28 the argument to infer is of a literal that has not just one atom
29 the sum so far lacks the atom that the argument is inferred by
30 the sum of the literals is no contradiction
31 two literals that are no form of the tautology
32 the disequality is not always true
33 two terms that should be equal
34 a bound that is not less than the other
35 a bound that is greater than the other
36 the two polynomials are not equal
37 a coefficient is 0
38 the coefficients have different signs
39 a coefficient is even
40 relations that differ, or that are not between two terms
41 a coefficient that is not a bit-vector constant
42 a side that is not an operation
",
    )?;
    print(rt, b"\n")
}
