/// Lists that drop, hang and are flat, and those that have no choice.
pub const ROWS: &str = r##"⇒-⇒
a⇒-⇒a⏎
()⇒-⇒()⏎
( )⇒-⇒()⏎
(a)⇒-⇒(a)⏎
((()))⇒-⇒((()))⏎
(a b)⇒L⇒(a⏎ b)⏎
(a b)⇒RL⇒(a b)⏎
(a b)⇒RR⇒(a b)⏎
(a   b)⇒RL⇒(a b)⏎
(a   b)⇒RR⇒(a b)⏎
(a⏎b)⇒RR⇒(a b)⏎
(a"b")⇒RR⇒(a "b")⏎
(foo alpha beta)⇒L⇒(foo⏎ alpha⏎ beta)⏎
(foo alpha beta)⇒RL⇒(foo alpha⏎     beta)⏎
(foo alpha beta)⇒RR⇒(foo alpha beta)⏎
(f a b c)⇒L⇒(f⏎ a⏎ b⏎ c)⏎
(f a b c)⇒RL⇒(f a⏎   b⏎   c)⏎
(f a b c)⇒RR⇒(f a b c)⏎
[f {a b c}]⇒RLRL⇒[f {a b⏎      c}]⏎
{λ é 日本}⇒R⇒{λ é 日本}⏎
#(a b c)⇒L⇒#(a⏎  b⏎  c)⏎
#(a b c)⇒R⇒#(a b c)⏎
#hash((a . 1) (b . 2))⇒RRR⇒#hash((a . 1) (b . 2))⏎
(a b)(c d)⇒LRL⇒(a⏎ b)⏎(c d)⏎
(a b)(c d)⇒RRL⇒(a b)⏎(c⏎ d)⏎
(a b c)⏎⏎⏎(d e f)⇒RLRR⇒(a b⏎   c)⏎⏎(d e f)⏎
#lang racket⏎(a b c)⇒RL⇒#lang racket⏎(a b⏎   c)⏎
(a b c)␍⏎d⇒RL⇒(a b⏎   c)⏎d⏎"##;
