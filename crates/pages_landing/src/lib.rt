// That showing the screen of a page lands just that page: after a write that completes a transfer command, as the third screen, over the public
// calls. RULES 5.7. The definitions are in specs/Sending, the laws in proofs/. There is no code here.
#![tactic(auto)]
