// On a state that is in order, what the code does to the bytes is the rule of hop_rule; there is no code here.
#![tactic(auto)]
