// The deed's demands as theorems over every row of calls, and over every log, which is one: who holds each slot time, what is kept of a station, what each tally is,
// where our own slots lie. No code: the statements are in specs/, about the definitions that the calls' contracts cite.
#![tactic(auto)]
