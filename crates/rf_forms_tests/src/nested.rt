/// Lists in lists: each side of the outer one with each of the inner one.
pub const ROWS: &str = r##"(f (g a b) c)⇒LL⇒(f⏎ (g⏎  a⏎  b)⏎ c)⏎
(f (g a b) c)⇒LRL⇒(f⏎ (g a⏎    b)⏎ c)⏎
(f (g a b) c)⇒LRR⇒(f⏎ (g a b)⏎ c)⏎
(f (g a b) c)⇒RLL⇒(f (g⏎    a⏎    b)⏎   c)⏎
(f (g a b) c)⇒RLRL⇒(f (g a⏎      b)⏎   c)⏎
(f (g a b) c)⇒RLRR⇒(f (g a b)⏎   c)⏎
(f (g a b) c)⇒RRL⇒(f (g a b) c)⏎
(f (g a b) c)⇒RRRL⇒(f (g a b) c)⏎
(f (g a b) c)⇒RRRR⇒(f (g a b) c)⏎
((a b c) d e)⇒LL⇒((a⏎  b⏎  c)⏎ d⏎ e)⏎
((a b c) d e)⇒LRL⇒((a b⏎    c)⏎ d⏎ e)⏎
((a b c) d e)⇒LRR⇒((a b c)⏎ d⏎ e)⏎
((a b c) d e)⇒RRR⇒((a b c) d e)⏎
((a b c) d e)⇒RL⇒((a b c) d e)⏎
((a b c) d e)⇒RRL⇒((a b c) d e)⏎
((a b))⇒L⇒((a⏎  b))⏎
((a b c))⇒RL⇒((a b⏎    c))⏎
((a b c))⇒RR⇒((a b c))⏎
(f () (g))⇒RL⇒(f ()⏎   (g))⏎
(f () (g))⇒RR⇒(f () (g))⏎
(a (b (c d)))⇒LLL⇒(a⏎ (b⏎  (c⏎   d)))⏎
(a (b (c d)))⇒LRLL⇒(a⏎ (b (c⏎     d)))⏎
(a (b (c d)))⇒LRRL⇒(a⏎ (b (c d)))⏎
(a (b (c d)))⇒RLRLL⇒(a (b (c⏎       d)))⏎
(a (b (c d)))⇒RLLRR⇒(a (b⏎    (c d)))⏎
(a (b (c d)))⇒RRLL⇒(a (b (c d)))⏎
(a (b c d) (e f g))⇒LRLL⇒(a⏎ (b c⏎    d)⏎ (e⏎  f⏎  g))⏎
(a (b c d) (e f g))⇒RLLRL⇒(a (b⏎    c⏎    d)⏎   (e f⏎      g))⏎
(a (b c d) (e f g))⇒RRRLL⇒(a (b c d) (e f g))⏎
(f (g aaaa bbbb) cc)⇒LRL⇒(f⏎ (g aaaa⏎    bbbb)⏎ cc)⏎"##;
