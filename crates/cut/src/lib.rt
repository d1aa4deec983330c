// The circuit cut at its head lines, and that it does what the circuit does.
#![tactic(auto)]
