// What the values and the names of a design have to keep so that it can be written as a text. There is no code to run here.
//
// `IsSound` says that the strings, numbers and ranges of a design are within the limits that the texts of both languages have: strings of at
// most 1,048,576 bytes, numbers of an absolute value below 2^63, and bounds of ranges of one below 2^31 (IEEE 1364-2005, 3.5, 3.6 and 12.3.3).
// `HasShortNames` says the same of names, which have at most 1,048,000 bytes.
#![tactic(auto)]
