// No code: edges of the public calls, computed. Those that an edit of a definition moves are in `rules`, so that the edits check no more than they need.
#![tactic(auto)]
