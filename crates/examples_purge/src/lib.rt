// Purges by whole calls of the definitions: the worked run with purges of `model_runs`, and every code.
#![tactic(auto)]
