/// Prefixes and datum comments before lists and in them.
pub const ROWS: &str = r##"'(a b)⇒L⇒'(a⏎  b)⏎
'(a b c)⇒R⇒'(a b c)⏎
'(a b c)⇒L⇒'(a⏎  b⏎  c)⏎
#'(f (a b c))⇒LL⇒#'(f⏎   (a⏎    b⏎    c))⏎
#'(f (a b c))⇒RLRL⇒#'(f (a b⏎        c))⏎
(f '(a b) c)⇒RLL⇒(f '(a⏎     b)⏎   c)⏎
(f '(a b c) d)⇒RRR⇒(f '(a b c) d)⏎
(f `(a ,(b c) ,@d) e)⇒RRRRR⇒(f `(a ,(b c) ,@d) e)⏎
(f `(a ,(b c) ,@d) e)⇒RRRRL⇒(f `(a ,(b c) ,@d) e)⏎
(f '#|x|# (a b c) d)⇒RRR⇒(f '#|x|# (a b c) d)⏎
(f ';c⏎ (a b) d)⇒RLR⇒(f ' ;c⏎    (a b)⏎   d)⏎
(f ';c⏎ (a b) d)⇒RRRL⇒unfit
(q , @x)⇒L⇒(q⏎ , @x)⏎
(q , @x)⇒RL⇒(q , @x)⏎
(q , @x)⇒RR⇒(q , @x)⏎
(q ,@x)⇒RL⇒(q ,@x)⏎
(q ,@x)⇒RR⇒(q ,@x)⏎
(f #;a)⇒RL⇒(f #;a)⏎
(f #;a b c)⇒L⇒(f⏎ #;a⏎ b⏎ c)⏎
(f #;a b c)⇒RL⇒(f #;a⏎   b⏎   c)⏎
(f #;a b c)⇒RR⇒(f #;a b c)⏎
(f a #;b)⇒RL⇒(f a⏎   #;b)⏎
(f a #;b)⇒RR⇒(f a #;b)⏎
(f #;(a b) c d)⇒RLL⇒(f #;(a⏎      b)⏎   c⏎   d)⏎
(f #;(a b) c d)⇒RLRR⇒(f #;(a b)⏎   c⏎   d)⏎
(f #;(a b) c d)⇒RRL⇒(f #;(a b) c d)⏎
(f #;#;a b c)⇒RL⇒(f #;#;a b⏎   c)⏎
(#;a f b c)⇒RL⇒(#;a⏎ f b⏎   c)⏎
(f #|x|# #;y a b)⇒RL⇒(f #|x|#⏎   #;y⏎   a⏎   b)⏎
#;(a b c) d⇒RL⇒#;(a b⏎     c)⏎d⏎
#1=(a #&(b c) d)⇒RLL⇒#1=(a #&(b⏎         c)⏎      d)⏎"##;
