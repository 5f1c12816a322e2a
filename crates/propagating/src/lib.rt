// A solver that propagates, learns from conflicts and jumps back. It chooses the lowest open variable that occurs, false
// first.
#![tactic(auto)]

use keeping::Keeping;
use search::Search;

// The solver with the engine that searches.
pub type Propagating = Keeping<Search>;
