// What is demanded of each operation of the face, as one page for the customer (specs/), and the theorems that the operations'
// contracts meet it (proofs/). There is no code here.
#![tactic(auto)]
