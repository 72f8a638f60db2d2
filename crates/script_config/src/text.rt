//! The text of a configuration, as a script, and its default period.

ghost use Rattle.std.specs.Prelude.{◌≡◌, ◌≤◌, None, IfOk, string_bytes};
ghost use Rattle.fib_carousel.specs.Pages.{page_set, rounds};
ghost use Rattle.plan_code.specs.Program.{IsPlan};
ghost use Rattle.script_config.specs.Texts.{IsTextOf, usual_period};

use crate::plain::script_of;
use fib_carousel::pages;
use fib_codec::FrameLayout;
use mux_config::Config;
use plan_code::Plan;
use plan_code::limits::LONGEST_PERIOD;
use script_front::print;
use std::alloc::{AllocError, Global};

/// The default period for the script of a configuration whose frames have this layout, in frames:
/// room for its pages, as many for the next one, and one frame more, but at least 4 and at most 60.
pub fn usual_period(layout: FrameLayout, config: &Config) -> u8
    ensures value { result ≡ usual_period (rounds layout (page_set config.now None)) }
    ensures from { 4 ≤ result }
    ensures to { result ≤ LONGEST_PERIOD }
{
    let alone: Option<&Config> = None;
    let pages = pages(layout, config, alone);
    if pages > 29 {
        return LONGEST_PERIOD;
    }
    let period = 2 * pages as u8 + 1;
    if period < 4 { 4 } else { period }
}

/// The text of the script with this header whose items make exactly this configuration, which may
/// be unsound, without statements after `begin`. It is formatted as by [`print`].
pub fn config_text(alloc: Global, header: Plan, config: &Config) -> Result<String, AllocError>
    requires { IsPlan header }
    ensures { IfOk result (λ text. IsTextOf header config.now (string_bytes text)) }
{
    let script = script_of(alloc, header, config, &[])?;
    print(alloc, &script)
}
