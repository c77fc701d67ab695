//! Lines of timers, a line for each list.
ghost use Rattle.std.specs.Prelude.{◌≡◌, ◌<◌, ◌++◌, length, OnOk};
ghost use Rattle.timer_script.specs.Decorator.{HasGrown};
ghost use Rattle.timer_commands.specs.Indented.{HasGrownByIndented, HasGrownByBare, HasGrownByEnd};
ghost use Rattle.std.specs.List.{filter};
ghost use Rattle.timer_commands.specs.Pictures.{kept_rows, node_text, rows_text, list_end, lines_below, has_row};
ghost use Rattle.timer_links.specs.Lists.{list_at};

use crate::render::names::{Naming, has_rounds, push_name, push_number};
use crate::shows::Filter;
use timer_base::OutOfMemory;
use timer_links::{Kept, Links, Node};

/// The first list that has a timer, or their number.
pub(crate) fn first_list<N: Kept>(links: &Links<N>) -> usize {
    for list in 0..links.lists() {
        if !links.is_empty(list) {
            return list;
        }
    }
    links.lists()
}

/// Whether a list has a timer that is kept.
pub(crate) fn has_kept<N: Kept>(links: &Links<N>, list: usize, filter: Filter) -> bool
    requires { list < length links.now.lists }
    ensures { result ≡ has_row (kept_rows filter (list_at list links.now.lists)) }
{
    links.lemma_keys_unique();
    let mut at = links.front(list);
    for step in 0..links.len() {
        let Some(key) = at else {
            return false;
        };
        let Some(node) = links.get(key) else {
            return false;
        };
        if filter.keeps(node.timer) {
            return true;
        }
        at = links.next(key);
    }
    false
}

/// Appends a line for each list with a timer that is kept.
pub(crate) fn push_lists<N: Kept>(
    text: &mut Vec<u8>,
    links: &Links<N>,
    naming: Naming,
    filter: Filter,
) -> Result<(), OutOfMemory>
    ensures lines { OnOk result (text.new.items
        ≡ text.old.items ++ lines_below naming filter links.now.lists (length links.now.lists)) }
    ensures indented { OnOk result (HasGrownByIndented text.old.items text.new.items) }
    ensures kept { HasGrown text.old.items text.new.items }
{
    for list in 0..links.lists() {
        if has_kept(links, list, filter) {
            text.push(b' ')?;
            push_list(text, links, list, naming, filter)?;
        }
    }
    Ok(())
}

/// Appends a list's name and its timers that are kept, up to the end of the line.
fn push_list<N: Kept>(
    text: &mut Vec<u8>,
    links: &Links<N>,
    list: usize,
    naming: Naming,
    filter: Filter,
) -> Result<(), OutOfMemory>
    requires { list < length links.now.lists }
    ensures line { OnOk result (text.new.items
        ≡ text.old.items ++ list_end naming list (kept_rows filter (list_at list links.now.lists))) }
    ensures ended { OnOk result (HasGrownByEnd text.old.items text.new.items) }
    ensures kept { HasGrown text.old.items text.new.items }
{
    push_name(text, list as u64, naming)?;
    text.push(b':')?;
    push_rows(text, links, list, naming, filter)?;
    text.push(b'\n')?;
    Ok(())
}

/// Appends the timers of a list that are kept.
fn push_rows<N: Kept>(
    text: &mut Vec<u8>,
    links: &Links<N>,
    list: usize,
    naming: Naming,
    filter: Filter,
) -> Result<(), OutOfMemory>
    requires { list < length links.now.lists }
    ensures rows { OnOk result (text.new.items
        ≡ text.old.items ++ rows_text naming (kept_rows filter (list_at list links.now.lists))) }
    ensures bare { OnOk result (HasGrownByBare text.old.items text.new.items) }
    ensures kept { HasGrown text.old.items text.new.items }
{
    links.lemma_keys_unique();
    let mut at = links.front(list);
    for step in 0..links.len() {
        let Some(key) = at else {
            break;
        };
        let Some(node) = links.get(key) else {
            break;
        };
        if filter.keeps(node.timer) {
            push_node(text, node, naming)?;
        }
        at = links.next(key);
    }
    Ok(())
}

/// Appends a timer's serial, and its rounds where they are shown.
#[tactic(auto, using(crate::proofs::IndentedLemmas::bare_numbers))]
fn push_node(text: &mut Vec<u8>, node: Node, naming: Naming) -> Result<(), OutOfMemory>
    ensures node { OnOk result (text.new.items ≡ text.old.items ++ node_text naming node) }
    ensures bare { OnOk result (HasGrownByBare text.old.items text.new.items) }
    ensures kept { HasGrown text.old.items text.new.items }
{
    push_number(text, b" ", node.timer.serial)?;
    if has_rounds(naming) {
        push_number(text, b":", node.rounds)
    } else {
        Ok(())
    }
}

/// Appends the rest of the line of a move: the bucket, that to which its timers went, and these.
pub(crate) fn push_move<N: Kept>(
    text: &mut Vec<u8>,
    links: &Links<N>,
    from: usize,
    to: usize,
    naming: Naming,
    filter: Filter,
) -> Result<(), OutOfMemory>
    requires { to < length links.now.lists }
    ensures ended { OnOk result (HasGrownByEnd text.old.items text.new.items) }
    ensures kept { HasGrown text.old.items text.new.items }
{
    text.extend_from_slice(b" from")?;
    push_name(text, from as u64, naming)?;
    text.extend_from_slice(b" to")?;
    push_list(text, links, to, naming, filter)
}
