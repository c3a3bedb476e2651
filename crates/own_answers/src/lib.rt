// What leastplan itself prints for an interval, read back and judged. Laws alone, in specs/: its plan and its loop are
// passed, and its 6, which has no tree, is no denial that can be judged.
#![tactic(auto)]
