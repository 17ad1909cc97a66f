// No code: specs/ holds equations that the independent program wrote, each checked against the definitions by computation.
#![tactic(auto)]
