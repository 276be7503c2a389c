// What the judge is: its definition, its answers, typings, and the demands on it as theorems. There is no code here.
#![tactic(auto)]
