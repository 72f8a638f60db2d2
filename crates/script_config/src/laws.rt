//! The laws of edits between configurations and of configurations that are sent page by page, and
//! the application of edits to any representation of a configuration. A law is a function that does
//! nothing; its contract is the law.

ghost use Rattle.std.specs.Prelude.{◌≡◌};
ghost use Rattle.mux_types.specs.Configuration.{Configuration, IsConfiguration, nothing};
ghost use Rattle.script_config.specs.Making.{edits_that_make};
ghost use Rattle.script_config.specs.Differences.{edits_between};
ghost use Rattle.script_config.specs.Sequences.{HaveNoFault, Transform, after};
ghost use Rattle.script_config.specs.HeardAgain.{PagesAreHeardAgain};

use mux_config::{Edit, Store};

/// The law of sequences: the edits that make a configuration turn the empty one into it, and those
/// between two configurations turn one into the other, each applied without a fault.
pub fn transforming()
    ensures making { (c : Configuration) → IsConfiguration c
        → Transform (edits_that_make c) nothing c }
    ensures between { (from to : Configuration) → IsConfiguration from → IsConfiguration to
        → Transform (edits_between from to) from to }
{
    mux_eep::laws::sizes();
}

/// Applies edits in order to any store, given that none of them has a fault.
pub fn carry_out<S: Store>(edits: &[Edit], store: &mut S)
    requires { HaveNoFault edits.now (S.content store.old) }
    ensures { S.content store.new ≡ after edits.now (S.content store.old) }
{
    for edit in edits {
        edit.apply_known(store);
    }
}

/// A new listener that hears the frames of all pages of a sound configuration, all with one count
/// at which FIG 0/0 is sent, knows exactly this configuration as the current one. So a script that
/// has the configuration of a stream, sent page by page, is heard as this configuration again.
pub fn heard_again()
    ensures { PagesAreHeardAgain }
{
    fib_reader::laws::ensemble();
    fib_carousel::laws::pages();
    fib_carousel::laws::carried();
}
