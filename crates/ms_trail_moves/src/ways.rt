//! Laws of ways over moves: each a function with an empty body, whose promise is the law.
ghost use Rattle.std.specs.Prelude.{◌≡◌, List, Some};
ghost use Rattle.ms_trail_moves.specs.{declared.moves.Move.{Move as AMove}, declared.moves.Hop.{Hop as AHop}};
ghost use Rattle.ms_trail_moves.specs.{declared.moves.Source.{Source as ASource}, Leads.{Leads}};
ghost use Rattle.ms_trail_moves.specs.Scanned.{Ascending, trail_of};

/// Of one list of moves there is at most one way to a use.
pub fn law_one_way()
    ensures { (moves : List AMove) (at : ASource) (hops others : List AHop) → Leads moves at hops → Leads moves at others → hops ≡ others }
{}

/// Of moves in the order of their steps one pass from the last one back finds the way, where there is one.
pub fn law_found_in_one_pass()
    ensures leads { (moves : List AMove) → Ascending moves → (at : ASource) (hops : List AHop) → trail_of moves at ≡ Some hops → Leads moves at hops }
    ensures finds { (moves : List AMove) → Ascending moves → (at : ASource) (hops : List AHop) → Leads moves at hops → trail_of moves at ≡ Some hops }
{}
