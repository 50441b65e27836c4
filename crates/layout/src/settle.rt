//! The search on one cluster: its starts are tried in the order of preference.

ghost use Rattle.std.specs.Prelude.{◌≡◌, true, [], MatchOption};
ghost use Rattle.std.specs.List.{All};
ghost use Rattle.theory.specs.Search.{Start, passes, passing, Settled};
ghost use Rattle.layout.specs.Near.{Begins, KeptOutside};
ghost use Rattle.layout.specs.Order.{starts_left, Found};
ghost use Rattle.layout.specs.Tables.{bits_at};
ghost use Rattle.layout.specs.Told.{told};

use super::near::NearStars;
use super::order::Starts;
use super::walk::Walk;
use bitset::BaselineSet;

// Whether a start passes; if so, its near stars are left.
fn attempt<'a>(walk: &Walk<'a>, cross: Option<usize>, near: &mut NearStars<'a>) -> bool
    requires rows { walk.now.rows.now ≡ near.old.rows.now }
    requires start { Start (told walk.now.rows.now) walk.now.root cross }
    ensures rows { near.new.rows.now ≡ near.old.rows.now }
    ensures passes { result ≡ passes (told walk.now.rows.now) walk.now.root cross }
    ensures stars { result ≡ true → Begins (told walk.now.rows.now) walk.now.root cross (bits_at near.new.near) }
    ensures kept { KeptOutside (told walk.now.rows.now) walk.now.root near.old.near near.new.near }
{
    let first = walk.first_star(cross);
    if !walk.can_pass(cross, first) {
        return false;
    }
    near.spread(walk, first);
    near.verify(walk)
}

// Tries the starts that are left until one passes, and answers whether one did.
fn find<'a>(walk: &Walk<'a>, starts: &mut Starts, near: &mut NearStars<'a>) -> bool
    requires rows { walk.now.rows.now ≡ near.old.rows.now }
    requires starts { All (Start (told walk.now.rows.now) walk.now.root) (starts_left starts.old) }
    ensures rows { near.new.rows.now ≡ near.old.rows.now }
    ensures starts { All (Start (told walk.now.rows.now) walk.now.root) (starts_left starts.new) }
    ensures found { Found (told walk.now.rows.now) walk.now.root starts.old starts.new (bits_at near.new.near) result }
    ensures kept { KeptOutside (told walk.now.rows.now) walk.now.root near.old.near near.new.near }
{
    while let Some(cross) = starts.next() {
        if attempt(walk, cross, near) {
            return true;
        }
    }
    false
}

// Settles a cluster: takes over the near stars of the preferred start that passes, and answers whether the cluster is
// doubtful, since another passes too; none where no start passes.
pub fn settle<'a>(walk: &Walk<'a>, near: &mut NearStars<'a>) -> Option<bool>
    ensures rows { near.new.rows.now ≡ near.old.rows.now }
    ensures settled { MatchOption result (passing (told walk.now.rows.now) walk.now.root ≡ [])
        (Settled (told walk.now.rows.now) walk.now.root (bits_at near.new.near)) }
    ensures kept { KeptOutside (told walk.now.rows.now) walk.now.root near.old.near near.new.near }
{
    let mut starts = Starts::All(walk.between());
    let mut tried = NearStars {
        rows: walk.rows,
        near: [BaselineSet::empty(); 64],
    };
    if !find(walk, &mut starts, &mut tried) {
        return None;
    }
    near.take_over(walk.met, &tried);
    Some(find(walk, &mut starts, &mut tried))
}
