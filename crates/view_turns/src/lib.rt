// That rows hidden from an adviser change no opening, turn, join or serving over what the call `view` wrote: theorems, no code.
#![tactic(auto)]
