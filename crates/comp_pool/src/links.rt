//! The links between nodes. Nodes are the numbers below `count`. Number `count + l` is both ends of
//! list l, so that each list is a ring: from its end over its nodes and back. List 0 has the free
//! nodes.

ghost use Rattle.std.specs.Prelude.{◌≡◌, ◌⊎◌, ℕ, ◌+◌, ◌<◌, ◌≤◌, length, slice_index, slice_set, Contains};
ghost use Rattle.comp_pool.specs.Private.Links.{next_when_free, back_when_free, lists_of, list_at, IsLinked, IsClosed, IsLast, moved};

// Makes b what follows a.
fn join(nexts: &mut [usize], backs: &mut [usize], a: usize, b: usize)
    requires forward { a < length nexts.old }
    requires backward { b < length backs.old }
    ensures forward { nexts.new ≡ slice_set nexts.old a b }
    ensures backward { backs.new ≡ slice_set backs.old b a }
{
    nexts[a] = b;
    backs[b] = a;
}

// Takes a node out of list `from` and puts it at the end of list `to`. A node's links tell where it
// is, so `from` is not read: it says which lists there are afterwards.
fn relink(nexts: &mut [usize], backs: &mut [usize], count: u32, node: u32, from: usize, to: usize)
    requires linked { IsLinked count nexts.old backs.old (lists_of count nexts.old) }
    requires from { from < length (lists_of count nexts.old) }
    requires to { to < length (lists_of count nexts.old) }
    requires listed { Contains (list_at (lists_of count nexts.old) from) node }
    ensures { IsLinked count nexts.new backs.new (moved node from to (lists_of count nexts.old)) }
{
    let _ = from;
    let place = node as usize;
    let before = backs[place];
    let after = nexts[place];
    join(nexts, backs, before, after);
    let end = count as usize + to;
    let last = backs[end];
    join(nexts, backs, last, place);
    join(nexts, backs, place, end);
}

/// Takes a node out of list `from` and puts it at the end of list `to`.
pub(crate) fn move_to(
    nexts: &mut Vec<usize>,
    backs: &mut Vec<usize>,
    count: u32,
    node: u32,
    from: usize,
    to: usize,
)
    requires linked { IsLinked count nexts.old.items backs.old.items
        (lists_of count nexts.old.items) }
    requires from { from < length (lists_of count nexts.old.items) }
    requires to { to < length (lists_of count nexts.old.items) }
    requires listed { Contains (list_at (lists_of count nexts.old.items) from) node }
    ensures linked { IsLinked count nexts.new.items backs.new.items
        (moved node from to (lists_of count nexts.old.items)) }
    ensures length { length nexts.new.items ≡ length nexts.old.items }
{
    relink(
        nexts.as_mut_slice(),
        backs.as_mut_slice(),
        count,
        node,
        from,
        to,
    );
}

/// The number that is linked at that place.
pub(crate) fn at(links: &[usize], place: usize) -> usize
    requires { place < length links.now }
    ensures { result ≡ slice_index links.now place }
{
    links[place]
}

// Writes the links below `upto` as they are when all nodes are free.
fn write_free(nexts: &mut [usize], backs: &mut [usize], count: usize, upto: usize)
    requires same { length backs.old ≡ length nexts.old }
    requires upto { upto ≤ length nexts.old }
    ensures forward { (k : ℕ) → k < upto
        → slice_index nexts.new k ≡ next_when_free count k }
    ensures backward { (k : ℕ) → k < upto
        → slice_index backs.new k ≡ back_when_free count k }
    ensures forward_rest { (k : ℕ) → upto ≤ k
        → slice_index nexts.new k ≡ slice_index nexts.old k }
    ensures backward_rest { (k : ℕ) → upto ≤ k
        → slice_index backs.new k ≡ slice_index backs.old k }
{
    for place in 0..upto {
        nexts[place] = next_link(count, place);
        backs[place] = back_link(count, place);
    }
}

// Empties each list that has a node: its last node is linked to its end, which is then linked with
// itself.
fn close_lists(nexts: &mut [usize], backs: &mut [usize], count: usize)
    requires same { length backs.old ≡ length nexts.old }
    requires nodes { count ≤ length nexts.old }
    requires inside { (k : ℕ) → k < length nexts.old
        → slice_index nexts.old k < length nexts.old }
    ensures { (end : ℕ) → count ≤ end → end < length nexts.old →
        IsClosed nexts.old backs.old end ⊎ IsLast nexts.old count 0 end
        → IsClosed nexts.new backs.new end }
{
    for node in 0..count {
        let next = nexts[node];
        if next >= count {
            join(nexts, backs, next, next);
        }
    }
}

fn next_link(count: usize, place: usize) -> usize
    ensures { result ≡ next_when_free count place }
{
    if place < count {
        place + 1
    } else if place == count {
        0
    } else {
        place
    }
}

fn back_link(count: usize, place: usize) -> usize
    ensures { result ≡ back_when_free count place }
{
    if place == 0 {
        count
    } else if count < place {
        place
    } else {
        place - 1
    }
}

/// Puts all nodes of new links into list 0, in order, and none into the others.
pub(crate) fn free_all(nexts: &mut Vec<usize>, backs: &mut Vec<usize>, count: u32)
    requires { length backs.old.items ≡ length nexts.old.items }
    ensures length { length nexts.new.items ≡ length nexts.old.items }
    ensures same { length backs.new.items ≡ length nexts.old.items }
    ensures forward { (k : ℕ) → k < length nexts.new.items
        → slice_index nexts.new.items k ≡ next_when_free count k }
    ensures backward { (k : ℕ) → k < length backs.new.items
        → slice_index backs.new.items k ≡ back_when_free count k }
{
    let all = nexts.len();
    write_free(
        nexts.as_mut_slice(),
        backs.as_mut_slice(),
        count as usize,
        all,
    );
}

fn refill(nexts: &mut [usize], backs: &mut [usize], count: usize)
    requires linked { IsLinked count nexts.old backs.old (lists_of count nexts.old) }
    requires ends { count < length nexts.old }
    ensures forward { (k : ℕ) → k < length nexts.new
        → slice_index nexts.new k ≡ next_when_free count k }
    ensures backward { (k : ℕ) → k < length backs.new
        → slice_index backs.new k ≡ back_when_free count k }
{
    close_lists(nexts, backs, count);
    write_free(nexts, backs, count, count + 1);
}

/// Puts all nodes into list 0 again, in order. The ends of empty lists are not visited.
pub(crate) fn free_again(nexts: &mut Vec<usize>, backs: &mut Vec<usize>, count: u32)
    requires linked { IsLinked count nexts.old.items backs.old.items
        (lists_of count nexts.old.items) }
    requires ends { count < length nexts.old.items }
    ensures length { length nexts.new.items ≡ length nexts.old.items }
    ensures same { length backs.new.items ≡ length nexts.old.items }
    ensures forward { (k : ℕ) → k < length nexts.new.items
        → slice_index nexts.new.items k ≡ next_when_free count k }
    ensures backward { (k : ℕ) → k < length backs.new.items
        → slice_index backs.new.items k ≡ back_when_free count k }
{
    refill(nexts.as_mut_slice(), backs.as_mut_slice(), count as usize);
}
