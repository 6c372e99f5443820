// No code: specs/ has what a call leaves in the words that another language lends it.

#![tactic(auto)]
