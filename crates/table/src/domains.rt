// The domains by their depths: a chain, each inside the one before it, the outermost at depth 1.
ghost use Rattle.std.specs.Prelude.{◌≡◌, ◌≤◌};
ghost use Rattle.words.specs.Layout.{max_live};
ghost use Rattle.table.specs.Entry.{parent, child, has_parent, is_inside};

// The next domain out.
pub fn parent_of(depth: u32) -> u32
    requires { 1 ≤ depth }
    ensures { result ≡ parent depth }
{
    depth - 1
}

// The next domain in.
pub fn child_of(depth: u32) -> u32
    requires { depth ≤ max_live }
    ensures { result ≡ child depth }
{
    depth + 1
}

// Has it a domain around it?
pub fn is_inner(depth: u32) -> bool
    ensures { result ≡ has_parent depth }
{
    2 <= depth
}

// Is the domain at depth `other` inside it?
pub fn is_inside(depth: u32, other: u32) -> bool
    ensures { result ≡ is_inside depth other }
{
    depth < other
}
