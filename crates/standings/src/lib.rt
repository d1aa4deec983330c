// Where the search for each fault of a list stands while one walk goes through the nodes for all of them: definitions and laws alone.
#![tactic(auto)]
