// The lines of words and queue on the bench's sheet, each from the numbers that it shows; a thread's is in the crate
// `thread_line`. Each function writes one piece of a line, as those of the crate `text` do, and has their contract: the
// piece has room, and then it stands there. What is printed is passed by value: which number of a lock it is, is said in
// the crate `report`.
#![tactic(auto)]

ghost use Rattle.std.specs.Prelude.{◌≡◌};
ghost use Rattle.lock.specs.Word.{is_closed};
ghost use Rattle.cells.specs.Kept.{holder};
ghost use Rattle.lock.specs.Sheet.{closed_field, root_line, node_line, word_line, mutex_field, queue_line};
ghost use Rattle.text.specs.Page.{Fits, Adds};
ghost use Rattle.cells.specs.View.{word_of};
ghost use Rattle.lines.specs.Shown.{group_count};

use cells::{Cell, direct_of, is_closed, tree_of};
use text::Page;

pub fn put_closed(page: &mut Page, v: u64)
    requires { Fits page.old (closed_field (is_closed (word_of v))) }
    ensures { Adds page.old (closed_field (is_closed (word_of v))) page.new }
{
    if is_closed(v) {
        page.put_text(b" closed\n")
    } else {
        page.put_text(b" open\n")
    }
}

fn put_root(page: &mut Page, v: u64)
    requires { Fits page.old (root_line (word_of v)) }
    ensures { Adds page.old (root_line (word_of v)) page.new }
{
    page.put_field(b"root ", direct_of(v) as usize);
    page.put_field(b" ", tree_of(v) as usize);
    put_closed(page, v);
}

fn put_node(page: &mut Page, i: usize, v: u64)
    requires { Fits page.old (node_line i (word_of v)) }
    ensures { Adds page.old (node_line i (word_of v)) page.new }
{
    page.put_field(b"node ", i);
    page.put_last(b" ", tree_of(v) as usize);
}

// Word 0 is the root, and the others are nodes.
pub fn put_word(page: &mut Page, i: usize, v: u64)
    requires { Fits page.old (word_line i (word_of v)) }
    ensures { Adds page.old (word_line i (word_of v)) page.new }
{
    if i == Cell::ROOT {
        put_root(page, v)
    } else {
        put_node(page, i, v)
    }
}

fn put_mutex(page: &mut Page, mutex: u64)
    requires { Fits page.old (mutex_field (holder mutex)) }
    ensures { Adds page.old (mutex_field (holder mutex)) page.new }
{
    if mutex == Cell::FREE {
        page.put_text(b"free")
    } else {
        page.put_number(mutex as usize)
    }
}

// The number of groups that wait: the writers, of whom a ring of 64 places holds no more, and one more if readers wait.
fn group_count(readers: u64, writers: u64) -> usize
    ensures { result ≡ group_count readers writers }
{
    let held = (writers as usize).min(64);
    if 0 < readers { held + 1 } else { held }
}

pub fn put_queue(page: &mut Page, mutex: u64, readers: u64, writers: u64)
    requires { Fits page.old (queue_line (holder mutex) (group_count readers writers) writers) }
    ensures { Adds page.old (queue_line (holder mutex) (group_count readers writers) writers) page.new }
{
    let groups = group_count(readers, writers);
    page.put_text(b"queue ");
    put_mutex(page, mutex);
    page.put_field(b" ", groups);
    page.put_last(b" ", writers as usize);
}
