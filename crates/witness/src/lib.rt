// No code: runs and lives worked out by hand and computed, so that demand 3 is seen to speak of something, and each of its premises to be needed.
#![tactic(auto)]
