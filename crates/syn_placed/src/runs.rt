//! So many elements of a list, one after the other.
ghost use Rattle.std.specs.Prelude.{◌≡◌, ◌≤◌, ◌+◌, ◌++◌, length, take, drop, vec_len, vec_capacity};

/// So many entries from the start on.
pub(crate) fn run_of<T: Drop>(list: &[T], start: usize, count: usize) -> &[T]
    requires { start + count ≤ length list.now }
    ensures { result.now ≡ take count (drop start list.now) }
{
    let (_, others) = list.split_at(start);
    let (run, _) = others.split_at(count);
    run
}

/// Puts these entries in the place of so many from the start on.
pub(crate) fn replace_run<T: Drop>(list: &mut Vec<T>, start: usize, count: usize, added: Vec<T>)
    requires bounds { start + count ≤ vec_len list.old }
    requires room { vec_len list.old + vec_len added ≤ vec_capacity list.old + count }
    ensures items { list.new.items ≡ take start list.old.items
        ++ (added.items ++ drop (start + count) list.old.items) }
    ensures room { vec_capacity list.old ≤ vec_capacity list.new }
{
    if count == added.len() {
        swap_run(list, start, added);
    } else {
        take_out(list, start, count);
        put_in(list, start, added);
    }
}

/// Puts the entries in the place of as many; no other entry moves.
fn swap_run<T: Drop>(list: &mut Vec<T>, start: usize, added: Vec<T>)
    requires { start + vec_len added ≤ vec_len list.old }
    ensures items { list.new.items ≡ take start list.old.items
        ++ (added.items ++ drop (start + vec_len added) list.old.items) }
    ensures room { vec_capacity list.new ≡ vec_capacity list.old }
{
    let mut added = added;
    let (_, tail) = list.split_at_mut(start);
    let (run, _) = tail.split_at_mut(added.len());
    run.swap_with_slice(&mut added);
}

/// Takes out so many entries from the start on.
fn take_out<T: Drop>(list: &mut Vec<T>, start: usize, count: usize)
    requires { start + count ≤ vec_len list.old }
    ensures items { list.new.items ≡ take start list.old.items
        ++ drop (start + count) list.old.items }
    ensures room { vec_capacity list.new ≡ vec_capacity list.old }
{
    let (_, tail) = list.split_at_mut(start);
    tail.rotate_left(count);
    list.truncate(list.len() - count);
}

/// Puts the entries in at the place.
fn put_in<T: Drop>(list: &mut Vec<T>, at: usize, added: Vec<T>)
    requires bounds { at ≤ vec_len list.old }
    requires room { vec_len list.old + vec_len added ≤ vec_capacity list.old }
    ensures items { list.new.items ≡ take at list.old.items
        ++ (added.items ++ drop at list.old.items) }
    ensures room { vec_capacity list.old ≤ vec_capacity list.new }
{
    let mut added = added;
    let more = added.len();
    let _ = list.append(&mut added);
    let (_, tail) = list.split_at_mut(at);
    tail.rotate_right(more);
}
