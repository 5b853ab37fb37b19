//! The text of a generated scenario.
ghost use Rattle.std.specs.Prelude.{◌≡◌, ◌≤◌, ◌<◌, ◌↔◌, IsNone, [], get_or, length, slice_get, option_map, codes};
ghost use Rattle.rb_scenario.specs.Acceptance.{as_scenario};
ghost use Rattle.rb_gen.specs.Generated.{IsGenerated};
ghost use Rattle.rb_gen.specs.Text.{clock_lines, fault_lines, lines_of, named, node_at, node_line, number_line, pair_line, root_lines, rule_lines, say_lines, segment_line, word_said};

use arrayvec::ArrayString;
use itoa::Buffer;
use rb_base::NodeName;
use rb_clock::Clock;
use rb_rules::{Content, Pattern, Rule, Say};
use rb_scenario::Scenario;

fn text_line(text: &str) -> ArrayString<64>
    requires { length text.now ≤ 64 }
    ensures bytes { result.bytes ≡ text.now }
{
    let mut line = ArrayString::new();
    line.push_str(text);
    line
}

fn number_line(key: &str, number: u64) -> ArrayString<64>
    requires { length key.now ≤ 8 }
    ensures bytes { result.bytes ≡ number_line key.now number }
{
    let mut line = ArrayString::new();
    line.push_str(key);
    line.push_str(" = ");
    line.push_str(Buffer::new().format(number));
    line.push_str("\n");
    line
}

fn pair_line(key: &str, pair: (u32, u32)) -> ArrayString<64>
    requires { length key.now ≤ 8 }
    ensures bytes { result.bytes ≡ pair_line key.now pair }
{
    let mut line = ArrayString::new();
    line.push_str(key);
    line.push_str(" = [");
    line.push_str(Buffer::new().format(pair.0));
    line.push_str(", ");
    line.push_str(Buffer::new().format(pair.1));
    line.push_str("]\n");
    line
}

fn segment_line(key: &str, number: u32) -> ArrayString<64>
    requires { length key.now ≤ 8 }
    ensures bytes { result.bytes ≡ segment_line key.now number }
{
    let mut line = ArrayString::new();
    line.push_str(key);
    line.push_str(" = [[0, ");
    line.push_str(Buffer::new().format(number));
    line.push_str("]]\n");
    line
}

fn node_line(key: &str, node: NodeName) -> ArrayString<64>
    requires { length key.now ≤ 8 }
    ensures bytes { result.bytes ≡ node_line key.now node }
{
    let mut line = ArrayString::new();
    line.push_str(key);
    match node {
        NodeName::Biu(i) => {
            line.push_str(" = \"B");
            line.push_str(Buffer::new().format(i));
        }
        NodeName::Rmu(i) => {
            line.push_str(" = \"R");
            line.push_str(Buffer::new().format(i));
        }
    }
    line.push_str("\"\n");
    line
}

fn root_line(frames: u32, part: usize) -> ArrayString<64>
    requires { part < 6 }
    ensures bytes { result.bytes ≡ get_or (root_lines frames) part [] }
{
    match part {
        0 => text_line("biu = 8\n"),
        1 => text_line("rmu = 5\n"),
        2 => text_line("slots = 16\n"),
        3 => number_line("frames", u64::from(frames)),
        4 => text_line("requests = [2, 2, 2, 2, 2, 2, 2, 2]\n"),
        _ => text_line("words = [1, 2, 3, 4, 5, 6, 7, 8]\n"),
    }
}

// The length of the ticks from the first on.
fn length_of(segments: &[(u64, u32)]) -> u32
    ensures { result ≡ (get_or segments.now 0 (0, 0)).1 }
{
    match segments {
        [(_, length), ..] => *length,
        [] => 0,
    }
}

fn clock_line(node: NodeName, clock: &Clock, part: usize) -> ArrayString<64>
    requires { part < 4 }
    ensures bytes { result.bytes ≡ get_or (clock_lines node clock.now) part [] }
{
    match part {
        0 => text_line("[[clock]]\n"),
        1 => node_line("node", node),
        2 => number_line("start", clock.start()),
        _ => segment_line("ticks", length_of(clock.segments())),
    }
}

fn rule_line(rule: &Rule, part: usize) -> ArrayString<64>
    requires { part < 4 }
    ensures bytes { result.bytes ≡ get_or (rule_lines rule.now) part [] }
{
    match part {
        0 => text_line("[[link]]\n"),
        1 => node_line("from", named(rule.from)),
        2 => node_line("to", named(rule.to)),
        _ => number_line("delay", u64::from(rule.delay)),
    }
}

fn fault_line(node: NodeName, onset: Option<(u32, u16)>, part: usize) -> ArrayString<64>
    requires { part < 4 }
    ensures bytes { result.bytes ≡ get_or (fault_lines node onset) part [] }
{
    let (frame, slot) = onset.unwrap_or((0, 0));
    match part {
        0 => text_line("[[fault]]\n"),
        1 => node_line("node", node),
        2 => number_line("frame", u64::from(frame)),
        _ => number_line("slot", u64::from(slot)),
    }
}

fn named(pattern: Pattern) -> NodeName
    ensures { result ≡ named pattern }
{
    match pattern {
        Pattern::One(name) => name,
        Pattern::AllBiu => NodeName::Biu(0),
        Pattern::AllRmu => NodeName::Rmu(0),
    }
}

fn word_said(content: &Content) -> u32
    ensures { result ≡ word_said content.now }
{
    match content {
        Content::Word(word) => *word,
        _ => 0,
    }
}

fn say_line(say: &Say, part: usize) -> ArrayString<64>
    requires { part < 7 }
    ensures bytes { result.bytes ≡ get_or (say_lines say.now) part [] }
{
    let (slots, stages) = (say.slots, say.stages);
    match part {
        0 => text_line("[[say]]\n"),
        1 => node_line("from", say.from),
        2 => node_line("to", named(say.to)),
        3 => pair_line("frames", say.frames),
        4 => pair_line("slots", (u32::from(slots.0), u32::from(slots.1))),
        5 => pair_line("stages", (u32::from(stages.0), u32::from(stages.1))),
        _ => number_line("word", u64::from(word_said(&say.content))),
    }
}

// The node with this number; the RMUs come after the eight BIUs.
fn node_at(node: usize) -> NodeName
    requires { node < 13 }
    ensures { result ≡ node_at node }
{
    if node < 8 {
        NodeName::Biu(node as u8)
    } else {
        NodeName::Rmu((node - 8) as u8)
    }
}

/// Line n of the text of a generated scenario, counted from 0, with its line feed: the text is a
/// document that says the scenario. None exactly past the last line, 413.
pub fn line(scenario: &Scenario, n: usize) -> Option<ArrayString<64>>
    requires { IsGenerated (as_scenario scenario.now) }
    ensures text { option_map (λ l. l.bytes) result
        ≡ slice_get (lines_of (as_scenario scenario.now)) n }
    ensures none { IsNone result ↔ (414 ≤ n) }
{
    if n < 6 {
        Some(root_line(scenario.frames, n))
    } else if n < 58 {
        let node = (n - 6) / 4;
        let clock = scenario.clocks.get(node);
        Some(clock_line(node_at(node), clock, (n - 6) % 4))
    } else if n < 378 {
        let rule = scenario.delays.rules()[(n - 58) / 4];
        Some(rule_line(&rule, (n - 58) % 4))
    } else if n < 382 {
        Some(fault_line(NodeName::Biu(7), scenario.biu_onset[7], n - 378))
    } else if n < 386 {
        Some(fault_line(NodeName::Rmu(4), scenario.rmu_onset[4], n - 382))
    } else if n < 414 {
        let say = scenario.says.get((n - 386) / 7);
        Some(say_line(say, (n - 386) % 7))
    } else {
        None
    }
}
