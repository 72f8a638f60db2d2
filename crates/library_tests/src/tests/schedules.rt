//! The parsing of schedules, with the positions of faults, and their printed layout.

use schedule_front::{Source, parse_schedule, parse_source, print_schedule};
use script_front::parse;
use std::alloc::Global;
use std::test::Fail;

/// The first six lines of a schedule.
const HEAD: &str = "ensemble E1C5
period 4 notice 24 budget 100
sub 1 at 0 eep 3-A 128
service C221
audio 63 sub 1 in C221
schedule
";

/// A printed schedule with every edit and every form of a condition.
const EVERY: &str = "ensemble E1C5 mode 3
period 4 notice 240 budget 40 reserve 2
sub 1 at 0 eep 3-A 128
service C221
audio 63 sub 1 in C221
schedule
overlay night while time 22:00:00 to 06:00:00 {
  rate sub 1 96
}
overlay none while contact 0 open {
}
overlay region_5 while contact 5 closed and time 06:00:00 to 09:00:00 or contact 6 open {
  sub 2 at 96 eep 2-B 128
  service 0000C222
  audio 63 sub 2 in 0000C222
  data 5 sub 2 in C223
  packet 3 raw type 5 sub 2 address 7
  packet 4 groups type 5 sub 2 address 65535
  carry 3 in C223
  drop sub 1
  drop service C221
  drop packet 12
  drop component sub 3 in C221
  drop component packet 4 in 0000C221
  move sub 5 at 6
  rate sub 7 8
}
overlay day while time 00:00:00 to 23:59:59 or contact 15 closed and contact 3 open {
}
";

/// A printed schedule without items and edits.
const BRIEF: &str = "ensemble 00C5
period 60 notice 248 budget 255
schedule
overlay a while contact 1 open {
}
";

/// The fault of a text as it is printed; empty if it has none.
fn fault_of(alloc: Global, text: &str) -> Result<String, Fail> {
    match parse_schedule(alloc, text) {
        Ok(_found) => Ok(String::new(alloc)),
        Err(fault) => Ok(format!(in alloc; "{fault}")?),
    }
}

/// The fault of a text of either form as it is printed; empty if it has none.
fn source_fault_of(alloc: Global, text: &str) -> Result<String, Fail> {
    match parse_source(alloc, text) {
        Ok(_found) => Ok(String::new(alloc)),
        Err(fault) => Ok(format!(in alloc; "{fault}")?),
    }
}

/// Appends a text some times.
fn push_times(out: &mut String, text: &str, times: usize) -> Result<(), Fail> {
    for _time in 0..times {
        out.push_str(text)?;
    }
    Ok(())
}

#[test]
fn every_overlay_is_printed_as_it_is_read(rt: HostRuntime) -> Result<(), Fail> {
    let schedule = parse_schedule(rt.alloc(), EVERY)?;
    let printed = print_schedule(rt.alloc(), &schedule)?;
    assert_eq!(rt; printed.as_str(), EVERY);
    let short = "ensemble 00C5 period 60 notice 248 budget 255 schedule
        overlay a while contact 1 open{}";
    let schedule = parse_schedule(rt.alloc(), short)?;
    let printed = print_schedule(rt.alloc(), &schedule)?;
    assert_eq!(rt; printed.as_str(), BRIEF);
    Ok(())
}

#[test]
fn a_schedule_has_its_lines_and_its_parts(rt: HostRuntime) -> Result<(), Fail> {
    let schedule = parse_schedule(rt.alloc(), EVERY)?;
    assert_eq!(rt; schedule.line(), 6);
    assert_eq!(rt; schedule.last_line(), 29);
    assert_eq!(rt; schedule.items().len(), 3);
    assert_eq!(rt; schedule.names().len(), 4);
    let [night, none, region, day] = schedule.overlays() else {
        assert!(rt; false, "four overlays");
        return Ok(());
    };
    assert_eq!(rt; night.line, 7);
    assert_eq!(rt; none.line, 10);
    assert_eq!(rt; none.edits.len(), 0);
    assert_eq!(rt; region.line, 12);
    assert_eq!(rt; region.condition.len(), 2);
    assert_eq!(rt; region.edits.len(), 14);
    assert_eq!(rt; day.line, 28);
    Ok(())
}

#[test]
fn a_fault_has_its_position(rt: HostRuntime) -> Result<(), Fail> {
    let rows = [
        ("", ""),
        ("overlay low while contact 3 closed { }", ""),
        (
            "overlay low while contact 3 closed { wait 5 }",
            "7:38: Expected",
        ),
        (
            "overlay low while 22:00:00 to 06:00:00 { }",
            "7:19: Expected",
        ),
        ("overlay low while 5 { }", "7:19: Expected"),
        ("overlay low while { }", "7:19: Expected"),
        ("overlay low while", "7:18: Expected"),
        ("overlay low contact 3 closed { }", "7:13: Expected"),
        ("overlay Low while contact 3 closed { }", "7:9: Expected"),
        ("overlay and while contact 3 closed { }", "7:9: Expected"),
        (
            "overlay low while contact 3 open {} overlay low while contact 3 closed { }",
            "7:45: NameUsed",
        ),
        (
            "overlay low while contact 3 open {}\noverlay low while contact 3 closed { }",
            "8:9: NameUsed",
        ),
        (
            "overlay low while time 22:00 to 06:00:00 { }",
            "7:24: Number",
        ),
        (
            "overlay low while time 22:00:00 06:00:00 { }",
            "7:33: Expected",
        ),
        ("overlay low while contact 16 closed { }", "7:27: Number"),
        ("overlay low while contact 3 { }", "7:29: Expected"),
        (
            "overlay low while contact 3 closed and { }",
            "7:40: Expected",
        ),
        (
            "overlay low while contact 3 closed or { }",
            "7:39: Expected",
        ),
        (
            "overlay low while contact 3 closed contact 4 open { }",
            "7:36: Expected",
        ),
        (
            "overlay low while contact 3 closed { rate sub 1 96",
            "7:51: Expected",
        ),
        (
            "overlay low while contact 3 closed { rate sub 1 x }",
            "7:49: Number",
        ),
        ("overlay low while contact 3 closed { } }", "7:40: Expected"),
        ("begin", "7:1: Expected"),
        ("schedule", "7:1: Expected"),
        ("wait 5", "7:1: Expected"),
        ("define low { }", "7:1: Expected"),
    ];
    for (overlays, wanted) in rows {
        let text = format!(in rt.alloc(); "{HEAD}{overlays}")?;
        let found = fault_of(rt.alloc(), text.as_str())?;
        assert_eq!(rt; found.as_str(), wanted, "{overlays}");
        let found = source_fault_of(rt.alloc(), text.as_str())?;
        assert_eq!(rt; found.as_str(), wanted, "{overlays}");
    }
    Ok(())
}

#[test]
fn a_text_of_steps_is_read_as_a_script(rt: HostRuntime) -> Result<(), Fail> {
    let header = "ensemble E1C5 period 4 notice 24 budget 100 ";
    let rows = [
        "begin wait 5",
        "begin",
        "define a { } begin apply a",
        "define a { } schedule",
        "begin schedule",
        "sub 1 at 0 eep 3-A 128 begin wait 5",
        "sub 1 at 1024 eep 3-A 128 schedule",
        "sub 1 at 0 schedule",
        "",
        "overlay",
    ];
    for steps in rows {
        let text = format!(in rt.alloc(); "{header}{steps}")?;
        let wanted = match parse(rt.alloc(), text.as_str()) {
            Ok(_found) => String::new(rt.alloc()),
            Err(fault) => format!(in rt.alloc(); "{fault}")?,
        };
        let found = source_fault_of(rt.alloc(), text.as_str())?;
        assert_eq!(rt; found.as_str(), wanted.as_str(), "{steps}");
        match parse_source(rt.alloc(), text.as_str()) {
            Ok(Source::Schedule(_found)) => assert!(rt; false, "{steps}"),
            Ok(Source::Steps(_found)) => (),
            Err(_fault) => (),
        }
    }
    Ok(())
}

#[test]
fn a_schedule_has_at_most_32_tests_an_overlay(rt: HostRuntime) -> Result<(), Fail> {
    let mut text = format!(in rt.alloc(); "{HEAD}overlay a while contact 1 open")?;
    push_times(&mut text, " and contact 1 open", 15)?;
    push_times(&mut text, " or contact 1 open", 16)?;
    let column = text.len().saturating_sub(HEAD.len());
    let full = format!(in rt.alloc(); "{text} {{}}")?;
    assert_eq!(rt; fault_of(rt.alloc(), full.as_str())?.as_str(), "");
    let rows = [
        (" and contact 1 open {}", 6, "Limit"),
        (" or time 1", 5, "Limit"),
        (" and {}", 6, "Expected"),
        (" and 7", 6, "Expected"),
        (" or or", 5, "Expected"),
        (" or", 4, "Expected"),
    ];
    for (more, at, fault) in rows {
        let over = format!(in rt.alloc(); "{text}{more}")?;
        let wanted = format!(in rt.alloc(); "7:{}: {fault}", column.saturating_add(at))?;
        assert_eq!(rt;
            fault_of(rt.alloc(), over.as_str())?.as_str(),
            wanted.as_str(),
            "{more}"
        );
    }
    Ok(())
}

#[test]
fn a_schedule_has_at_most_64_overlays(rt: HostRuntime) -> Result<(), Fail> {
    let mut text = String::from_str(rt.alloc(), HEAD)?;
    for index in 0..64 {
        let overlay = format!(in rt.alloc(); "overlay a{index} while contact 1 open {{}}\n")?;
        text.push_str(overlay.as_str())?;
    }
    assert_eq!(rt; fault_of(rt.alloc(), text.as_str())?.as_str(), "");
    text.push_str("  overlay")?;
    assert_eq!(rt;
        fault_of(rt.alloc(), text.as_str())?.as_str(),
        "71:3: Limit"
    );
    Ok(())
}

#[test]
fn items_overlays_and_edits_count_together(rt: HostRuntime) -> Result<(), Fail> {
    let mut text = format!(in rt.alloc(); "{HEAD}overlay a while contact 1 open {{\n")?;
    push_times(&mut text, "rate sub 1 96\n", 8188)?;
    let full = format!(in rt.alloc(); "{text}}}")?;
    assert_eq!(rt; fault_of(rt.alloc(), full.as_str())?.as_str(), "");
    let overlay = format!(in rt.alloc(); "{text}}} overlay b")?;
    assert_eq!(rt;
        fault_of(rt.alloc(), overlay.as_str())?.as_str(),
        "8196:3: Limit"
    );
    let edit = format!(in rt.alloc(); "{text} drop")?;
    assert_eq!(rt;
        fault_of(rt.alloc(), edit.as_str())?.as_str(),
        "8196:2: Limit"
    );
    Ok(())
}
