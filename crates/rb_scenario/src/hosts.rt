//! What the root of a document says of each BIU: its request, its word and its application.
ghost use Rattle.std.specs.Prelude.{◌≡◌, ◌≤◌, ◌<◌, true, option_map};
ghost use Rattle.toml.specs.View.{view, table_view};
ghost use Rattle.rb_scenario.specs.Hosts.{app_at, app_in, app_named, apps_of, has_lists, request_at, requests_of, word_at, words_of};

use rb_scenario_document::values::{Within, item_at, listed_number, may_have_list};
use rb_scenario_document::walk::{Test, has_key};
use toml::{Table, Value};

/// The number of an application.
fn app_named(text: &str) -> Option<u8>
    ensures { result ≡ app_named text.now }
{
    if text == "table" {
        Some(0)
    } else if text == "counter" {
        Some(1)
    } else if text == "follow" {
        Some(2)
    } else {
        None
    }
}

/// The application that a value names.
fn app_in(value: Option<&Value>) -> Option<u8>
    ensures { result ≡ app_in (option_map (λ x. view x.now) value.entry) }
{
    match value {
        Some(value) => match value.as_str() {
            Some(text) => app_named(text),
            None => None,
        },
        None => None,
    }
}

/// The names of applications.
#[derive(Clone, Copy)]
struct IsApp;

impl Test for IsApp {
    ghost use Rattle.rb_scenario.specs.Hosts.{is_app};

    ghost holds = { λ _. is_app };

    fn test(&self, value: &Value) -> bool {
        app_in(Some(value)).is_some()
    }
}

/// Whether there is one of each for each BIU, if there are any.
pub(crate) fn has_lists(bius: u8, table: &Table) -> bool
    ensures { result ≡ has_lists bius (table_view table.now) }
{
    may_have_list(table, "requests", bius, &Within { low: 0, high: 64 })
        && may_have_list(
            table,
            "words",
            bius,
            &Within {
                low: 0,
                high: 4294967295,
            },
        )
        && may_have_list(table, "apps", bius, &IsApp)
}

/// How many data slots a BIU asks for.
fn request_at(bius: u8, table: &Table, index: usize) -> u16
    requires { has_lists bius (table_view table.now) ≡ true }
    ensures { result ≡ request_at bius (table_view table.now) index }
{
    if has_key(table, "requests") {
        listed_number(table, "requests", bius, index, 64) as u16
    } else if index < bius.into() {
        1
    } else {
        0
    }
}

/// The state with which a BIU's port begins.
fn word_at(bius: u8, table: &Table, index: usize) -> u32
    requires { has_lists bius (table_view table.now) ≡ true }
    ensures { result ≡ word_at (table_view table.now) index }
{
    listed_number(table, "words", bius, index, 4294967295) as u32
}

/// The application at a BIU.
fn app_at(table: &Table, index: usize) -> u8
    ensures { result ≡ app_at (table_view table.now) index }
{
    app_in(item_at(table, "apps", index)).unwrap_or(0)
}

/// The requests of 16 BIUs.
pub(crate) fn requests_of(bius: u8, table: &Table) -> [u16; 16]
    requires { has_lists bius (table_view table.now) ≡ true }
    ensures { result ≡ requests_of bius (table_view table.now) }
{
    let mut requests = [0; 16];
    for index in 0..16 {
        requests[index] = request_at(bius, table, index);
    }
    requests
}

/// The words of 16 BIUs.
pub(crate) fn words_of(bius: u8, table: &Table) -> [u32; 16]
    requires { has_lists bius (table_view table.now) ≡ true }
    ensures { result ≡ words_of (table_view table.now) }
{
    let mut words = [0; 16];
    for index in 0..16 {
        words[index] = word_at(bius, table, index);
    }
    words
}

/// The applications at 16 BIUs.
pub(crate) fn apps_of(table: &Table) -> [u8; 16]
    ensures { result ≡ apps_of (table_view table.now) }
{
    let mut apps = [0; 16];
    for index in 0..16 {
        apps[index] = app_at(table, index);
    }
    apps
}
