// Bytes put at a place of a slice: how a store or an output is filled piece by piece.
#![tactic(auto)]

ghost use Rattle.std.specs.Prelude.{◌≡◌, ◌+◌, ◌≤◌, length};
ghost use Rattle.putting.specs.Overlaid.{overlaid, PutsText};

// Puts a part's bytes into the room from a place on.
pub fn put(part: &[u8], room: &mut [u8], at: usize)
    requires { at + length part.now ≤ length room.old }
    ensures { room.new ≡ overlaid at part.now room.old }
{
    room[at..at + part.len()].copy_from_slice(part);
}

// The same, and answers the place after them.
pub fn text(part: &[u8], room: &mut [u8], at: usize) -> usize
    requires { at + length part.now ≤ length room.old }
    ensures { PutsText at part.now room.old result room.new }
{
    put(part, room, at);
    at + part.len()
}
