/// Choices that are too few, too many, or of a side that has no layout.
pub const ROWS: &str = r##"⇒L⇒unfit
a⇒L⇒unfit
()⇒L⇒unfit
()⇒R⇒unfit
(a)⇒L⇒unfit
(a)⇒R⇒unfit
(a b)⇒-⇒unfit
(a b)⇒R⇒unfit
(a b)⇒LL⇒unfit
(a b)⇒LR⇒unfit
(a b)⇒RLL⇒unfit
(a b)⇒RRR⇒unfit
(a (b c))⇒L⇒unfit
(a (b c))⇒LR⇒unfit
(a (b c))⇒LLL⇒unfit
(a (b c))⇒RL⇒unfit
(a (b c))⇒RR⇒unfit
(a (b c))⇒RRLL⇒unfit
(a b)(c d)⇒L⇒unfit
(a b)(c d)⇒RL⇒unfit
(a b)(c d)⇒LLL⇒unfit
((a ; c⏎) b)⇒RR⇒unfit
'(a⏎⏎b)⇒RR⇒unfit
(f '(a⏎⏎b))⇒RRL⇒unfit
(f #;(a⏎⏎b) c)⇒RRL⇒unfit
(f ((((a ; c⏎)))))⇒RR⇒unfit"##;
