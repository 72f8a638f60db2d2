//! Printing the conditions of overlays.

ghost use Rattle.std.specs.Prelude.{◌≡◌, ◌++◌, OnOk, string_bytes};
ghost use Rattle.script_front.specs.Printing.{each_after};
ghost use Rattle.schedule_front.specs.Spelled.{test_lexemes, and_lexemes, tests_lexemes};
ghost use Rattle.schedule_front.specs.Spelled.{or_lexemes, condition_lexemes};
ghost use Rattle.schedule_front.specs.Tree.{alternatives_of};

use crate::tree::Test;
use script_front::wait_lexemes::{put_contact, put_window};
use std::alloc::AllocError;

/// A space, then a test.
fn put_test(out: &mut String, test: Test) -> Result<(), AllocError>
    ensures { OnOk result (string_bytes out.new ≡ string_bytes out.old ++ each_after (test_lexemes
        test)) }
{
    match test {
        Test::Contact { contact, closed } => put_contact(out, contact, closed),
        Test::Time { from, to } => put_window(out, from, to),
    }
}

/// Tests, each after `and`.
#[tactic(auto, using(crate::proofs::PrintedConditions::and_more, crate::proofs::PrintedConditions::and_all))]
fn put_each_and(out: &mut String, tests: &[Test]) -> Result<(), AllocError>
    ensures { OnOk result (string_bytes out.new ≡ string_bytes out.old ++ each_after (and_lexemes
        tests.now)) }
{
    for test in tests {
        out.push_str(" and")?;
        put_test(out, *test)?;
    }
    Ok(())
}

/// A space, then tests with `and` between each two.
#[tactic(auto, using(crate::proofs::PrintedConditions::tests_put))]
fn put_tests(out: &mut String, tests: &[Test]) -> Result<(), AllocError>
    ensures { OnOk result (string_bytes out.new ≡ string_bytes out.old ++ each_after (tests_lexemes
        tests.now)) }
{
    match tests {
        [] => Ok(()),
        [first, others @ ..] => {
            put_test(out, *first)?;
            put_each_and(out, others)?;
            Ok(())
        }
    }
}

/// Alternatives, each after `or`.
#[tactic(auto, using(crate::proofs::PrintedConditions::or_more, crate::proofs::PrintedConditions::or_all))]
fn put_each_or(out: &mut String, alternatives: &[Vec<Test>]) -> Result<(), AllocError>
    ensures { OnOk result (string_bytes out.new ≡ string_bytes out.old ++ each_after (or_lexemes
        (alternatives_of alternatives.now))) }
{
    for tests in alternatives {
        out.push_str(" or")?;
        put_tests(out, tests.as_slice())?;
    }
    Ok(())
}

/// A space, then a condition: alternatives with `or` between each two.
#[tactic(auto, using(crate::proofs::PrintedConditions::condition_put))]
pub fn put_condition(out: &mut String, condition: &[Vec<Test>]) -> Result<(), AllocError>
    ensures { OnOk result (string_bytes out.new ≡ string_bytes out.old ++ each_after
        (condition_lexemes (alternatives_of condition.now))) }
{
    match condition {
        [] => Ok(()),
        [first, others @ ..] => {
            put_tests(out, first.as_slice())?;
            put_each_or(out, others)?;
            Ok(())
        }
    }
}
