// No code: the listed ids of a block, all at once: how many confirmed records there will be, told from the tables as they stand before it, and what they leave.
#![tactic(auto)]
