//! What the words that threads share stand for: the words of objects, their monitors, the threads that they have
//! started and the classes of an ordinary state, read off the table (`specs/Reading.antt`). Definitions alone.
#![tactic(auto)]
